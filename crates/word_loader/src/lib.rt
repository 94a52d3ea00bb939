//! Code as bytes, both ways: `write_code` gives the layout of valid code, `load` reads it again or
//! answers the first field that fails and its row, and `is_valid` tests code. Each stands on the
//! tests of `rules.rt` and on the table of instructions of `word_loader_format`.
#![tactic(auto)]

mod fields;
mod loader;
mod parts;
mod rules;
mod validity;
mod writer;

pub use loader::{LoadStop, load};
pub use validity::is_valid;
pub use word_loader_code::{Code, Function, Instr};
pub use writer::write_code;

#[cfg(test)]
mod tests;
