//! The grammar of the language as a table: for each nonterminal its alternatives, each a row of
//! symbols, and what the table derives. The table of the code and that of `specs/` are one.
#![tactic(auto)]

mod order;
mod symbols;
mod table;

pub use order::nonterminals;
pub use symbols::{Nonterminal, Symbol};
pub use table::alternatives;
