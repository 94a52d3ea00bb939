//! Formulas at other variables: each free index becomes the one that a list has for it. A formula under the heaps
//! of a state, and the conditions of a triple, are so read at heaps and values of one's choice. It is the walk that
//! puts for each variable what the list says; the walk counts the binders around, and their variables stay.
#![tactic(auto)]

mod listed;
mod renamed;

pub use listed::Listed;
pub use renamed::{post_at, pre_at, rename, rename_past};

#[cfg(test)]
mod tests;
