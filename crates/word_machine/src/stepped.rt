//! What a step of the machine answers.

use htt_syntax_words::Kind;

/// The answer of a step.
#[derive(Clone, Copy, Debug, PartialEq, Eq)]
pub enum Stepped {
    /// The machine goes on.
    Going,
    /// The machine has halted.
    Halted,
    /// The machine has faulted at this kind of instruction, for want of a fitting block at this
    /// location.
    Fault(Kind, u64),
    /// The next instruction is an `alloc`, and the location to choose is 0 or in use. Nothing has
    /// changed.
    Asks,
}
