//! Types, terms, computations and formulas within the limits of levels and of operands. The readers
//! of a level read what is deeper by a function, which is here that of the next level, until no
//! level is left: this is the one recursion over the phrases, as deep as the levels.
#![tactic(auto)]

mod phrases;
mod wanted;

pub use phrases::Phrases;
