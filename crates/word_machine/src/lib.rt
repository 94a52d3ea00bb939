//! The word machine: it runs valid code over local words and a heap. `Machine` is one step at a time,
//! with a location to choose for each new block; `run` is a whole run with the shipped choices, up to
//! the limits on steps, frames and the heap. Contracts see both as the written machine.
#![tactic(auto)]

mod blocks;
mod instrs;
mod limits;
mod machine;
mod operations;
mod runs;
mod stepped;

pub use htt_syntax_words::{Bound, Kind};
pub use machine::{Machine, StartStop, start};
pub use runs::{End, run};
pub use stepped::Stepped;
