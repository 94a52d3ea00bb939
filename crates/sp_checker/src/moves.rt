//! A step as far as states go, and what it leads to.

use htt_syntax::{Formula, Mono, Term, Triple};

/// A step of a computation. Its monotypes and terms stand in the context and the variables of the steps before it,
/// without the heaps; so does the triple, and a claim under the heaps `init` and `mem`.
#[derive(Drop)]
pub enum Move {
    /// Allocates a block for this value.
    Alloc(Mono, Term),
    /// Reads the value at this location.
    Get(Mono, Term),
    /// Writes at this location this value.
    Set(Mono, Term, Term),
    /// Frees the block at this location.
    Free(Mono, Term),
    /// Runs what has this triple.
    Run(Triple),
    /// States a formula.
    Claim(Formula),
}

/// What a step leads to: the state behind it, which stands under its variable, and what it owes in the state
/// before, if anything.
#[derive(Drop)]
pub struct AfterMove {
    pub state: Formula,
    pub owed: Option<Formula>,
}
