//! The words in which refusals are told. They stand below the trees, so that what knows no tree,
//! as the outside and the machine, doesn't wait for them.
#![tactic(auto)]

mod words;

pub use words::{Bound, Kind, Rule, SyntaxKind, Which, Why};
