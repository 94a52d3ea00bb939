//! Monotypes of a text at a place: their sizes, with the stop that they meet first, and then the monotypes themselves.
//! The sizes are counted without making a tree.
#![tactic(auto)]

mod build;
mod measure;
#[cfg(test)]
mod tests;

pub use build::build_mono;
pub use measure::measure_mono;
