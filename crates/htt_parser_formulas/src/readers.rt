//! What the formulas of a level are read from.

use htt_parser_terms::Terms;

/// The readers of formulas at a level.
#[derive(Clone, Copy)]
pub struct Formulas<'a, F> {
    pub terms: Terms<'a, F>,
}
