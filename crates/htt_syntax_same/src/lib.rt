//! Equality of trees: of monotypes so far.
#![tactic(auto)]

mod monos;

pub use monos::same_mono;

#[cfg(test)]
mod tests;
