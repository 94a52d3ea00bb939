//! The names that are printed. First the scope of a phrase: the entries around it, how many hypotheses there are, and
//! the names of the values and of the recursive predicates. Then the names themselves, each appended to the bytes that
//! were printed before it. A scope isn't changed by what stands under a binder: that has a scope of its own.
#![tactic(auto)]

mod entries;
mod names;
mod scope;
#[cfg(test)]
mod tests;

pub use names::{push_hypothesis_name, push_name_at, push_number};
pub use scope::NameScope;
