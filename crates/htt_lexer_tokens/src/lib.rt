//! The tokens of the language as plain data: names, numbers, keywords and signs, with their spans.
#![tactic(auto)]

mod tokens;

pub use tokens::{Keyword, Kind, Sign, Token};
