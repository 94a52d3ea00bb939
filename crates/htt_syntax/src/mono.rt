//! Monotypes: the types of what a heap holds and a computation answers.

use sqlite_items::Boxed;

/// A monotype.
#[derive(Drop)]
pub enum Mono {
    Word,
    Bool,
    Loc,
    Unit,
    Pair(Boxed<Mono>, Boxed<Mono>),
    /// A monotype variable, by its index over all entries.
    Var(u32),
}

/// An operation on two words. `Lt` gives a truth value, each other one a word.
#[derive(Clone, Copy, Debug, PartialEq, Eq)]
pub enum Op {
    Add,
    Sub,
    Mul,
    And,
    Or,
    Xor,
    Shl,
    Shr,
    Lt,
}
