//! The code of the word machine, as a type, with the written machine in `specs/`: valid code, one
//! step, and the machine after a number of steps. A function without a body states a law by its
//! contract.
#![tactic(auto)]

mod code;
mod laws;

pub use code::{Code, Function, Instr};
pub use laws::{choices_are_handed_on, over_is_final, worked_code, worked_runs};
