//! The written format of code, as definitions with laws: how code is laid out in bytes, and which
//! rows a file is tested for, in which order. The table of instructions (`table.rs`) has each
//! instruction's byte and operands once; the layout, the tests and the crate that reads and writes
//! follow from it.
#![tactic(auto)]

mod laws;
mod rows;
mod table;

pub use laws::{coded_isnt_refused, coded_or_refused, one_code, one_refusal, worked_files};
pub use rows::{Fault, Header};
pub use table::{Opcode, Operand, Words};
