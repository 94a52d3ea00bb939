//! The tokens of a text as a parser goes over them, from left to right: signs, words, names, numbers,
//! heaps and monotypes. Each function takes the place of a token among the tokens and answers what
//! it read with the place of what follows, or why it stopped; this is what the written reader of
//! its production answers.
#![tactic(auto)]

mod beginnings;
mod cursor;
mod mono;
mod words;

pub use beginnings::Phrase;
pub use cursor::{Cursor, Halted, Reason};
pub use words::span_of;
