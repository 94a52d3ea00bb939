//! The answers of commands: what a command's work gives or why it is refused, as data; the status of
//! each, its lines, and their printing. Nothing is printed before the answer stands, so that each
//! command prints one answer.
#![tactic(auto)]

mod answer;
mod lines;
mod printing;

pub use answer::{Refusal, Success};
pub use lines::limit_of;
pub use printing::print;

#[cfg(test)]
mod tests;
