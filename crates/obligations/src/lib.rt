//! The obligations of a file: what its declarations owe, in a table of rows, and which of the rows have a proof.
//! A row comes in with the item that owes it, free; a proof of the file claims it, once; it may be proved later
//! where it was left to the provers.
#![tactic(auto)]

mod claims;
mod row;
mod table;

pub use claims::{ClaimStop, claims_are_once, claims_come_to_one};
pub use row::{Row, State};
pub use table::Table;

#[cfg(test)]
mod tests;
