//! The states of a computation and what its steps owe: the formulas with which a body is checked against a triple.
//! `start` gives the state before the first step, `after` what a step owes in a state and the state behind it, and
//! `branch`, `finish`, `merge` and `last` those of branches and ends. Each is the formula that the table of states
//! has for it (`docs/TYPING.md`, "States and obligations"). A formula is put together by calls that take their parts
//! as results, so that each formula is one expression.
#![tactic(auto)]

mod ends;
mod moves;
mod nodes;
mod owed;
mod states;
mod values;

pub use ends::{branch, finish, last, merge};
pub use moves::{AfterMove, Move};
pub use states::{after, start};

#[cfg(test)]
mod tests;
