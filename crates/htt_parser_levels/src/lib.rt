//! What the readers of phrases read one level deeper. A level is the tokens, how many further levels
//! may be entered from it, and a function that reads each phrase one level deeper. So each production
//! is read by a function of its own that calls no reader above it, and the recursion over the levels
//! stands in one place.
#![tactic(auto)]

mod found;
mod level;

pub use found::{Found, Wanted};
pub use level::Level;
