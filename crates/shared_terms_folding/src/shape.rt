//! What folding sees of a term, and what it computes.

use shared_terms_rows::TermForm;

/// A literal, a pair of what stands at two places, or neither.
#[derive(Clone, Copy)]
pub enum Shape {
    Word(u64),
    Bool(bool),
    Loc(u64),
    Pair(usize, usize),
    Other,
}

/// What a term is computed to: itself, what stands at a place, or a literal.
#[derive(Clone, Copy)]
pub enum Computed {
    Itself,
    Place(usize),
    /// A form without slots.
    Literal(TermForm),
}
