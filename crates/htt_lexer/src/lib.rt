//! Cuts a text into its tokens. The tables of keywords and signs come first, then what stands at the
//! front of a text, then the loop that takes one piece after the other. What the tokens of a text are
//! stands in `specs/Tokens.antt`, and why a text has none in `specs/Refusals.antt`; the code is proved
//! to answer exactly those.
#![tactic(auto)]

mod laws;
mod lexer;
mod pieces;
mod tables;
#[cfg(test)]
mod tests;

pub use htt_lexer_tokens::{Keyword, Kind, Sign, Token};
pub use laws::{token_laws, worked_examples};
pub use lexer::{LexStop, tokens};
