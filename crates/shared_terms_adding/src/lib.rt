//! Trees into a table of rows. First trees as they are borrowed, and the root of one, by its kind: its form, and what
//! stands in each slot. Then the walk, which adds what is in the slots of the root and puts the row of the root behind
//! them, whatever its form.
#![tactic(auto)]

mod adding;
mod formulas;
mod lists;
mod root;
mod steps;
mod terms;
mod tree;
mod types;

pub use adding::add;
pub use tree::Tree;

#[cfg(test)]
mod tests;
