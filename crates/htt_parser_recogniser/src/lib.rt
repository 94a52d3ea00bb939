//! A plain recogniser of the grammar: whether some tokens are a file, a type, a formula or a proof. It
//! is short and slow, and made to be compared with the parser on small inputs. It knows nothing of the
//! phrases but the table: from what it has found it finds more, until nothing new is found. The levels
//! and the lengths of chains are no concern of it.
#![tactic(auto)]

mod chart;
mod phrases;
mod rows;
#[cfg(test)]
mod tests;

pub use chart::derives;
pub use phrases::{is_file, is_formula, is_proof, is_type};
