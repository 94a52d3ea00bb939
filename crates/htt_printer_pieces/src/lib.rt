//! What printed phrases are made of: where brackets are printed, by the place where a phrase stands and by what it is;
//! the signs of operations and the places of the heap as words; and monotypes, which stand alone.
#![tactic(auto)]

mod brackets;
mod forms;
mod monotypes;
#[cfg(test)]
mod tests;
mod words;

pub use brackets::{Place, Shape, needs_brackets};
pub use forms::{formula_shape, mono_shape, term_shape};
pub use monotypes::push_mono;
pub use words::{push_literal_place, spaced_sign};
