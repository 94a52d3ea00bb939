//! The words of a command, those after the program's name: which form they have, and what it names.
//! Options come after the names, once each at most, in one order, so that words have one form at most.
#![tactic(auto)]

mod command;
mod laws;

pub use command::{Command, read_words};
pub use laws::one_form;

#[cfg(test)]
mod tests;
