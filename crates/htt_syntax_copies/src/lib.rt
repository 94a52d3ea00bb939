//! Tests that a copy of each form of node succeeds with memory enough. They stand apart from the walk
//! by which copies are made, since a crate with tests is proved twice, and the walk is dear to prove.
#![tactic(auto)]

#[cfg(test)]
mod tests;
