//! The public readers: a phrase that is the whole list of tokens, or the declarations of a file, with
//! its tree, or the place and the reason of the first token with which no tree goes on.
#![tactic(auto)]

mod calls;
#[cfg(test)]
mod limits;
mod stops;
#[cfg(test)]
mod tests;

pub use calls::{parse, parse_formula, parse_mono, parse_proof};
pub use stops::ParseStop;
