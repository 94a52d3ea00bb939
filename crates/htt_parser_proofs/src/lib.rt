//! Proofs. Each function answers what the written reader of its production answers. The readers of a
//! level read a proof one level deeper by a function, which is that of the next level until none is
//! left; statements, arguments and the further operands of `app` and `inst` are read by loops.
#![tactic(auto)]

mod arguments;
mod axioms;
mod ends;
mod level;
mod proofs;
mod rules;
mod statements;

pub use level::ProofLevel;
pub use proofs::Proofs;
