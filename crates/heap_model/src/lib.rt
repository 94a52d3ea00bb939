//! The heap model of the machine: the heap and its text, the values of monotypes, and how a value is
//! encoded by words, decoded and printed.
#![tactic(auto)]

mod coding;
mod decoding;
mod front;
mod laws;
mod text;
mod value;

pub use coding::{decode, encode, width};
pub use heap_model_flat::Heap;
pub use heap_model_text::{HeapStop, read_heap, write_heap};
pub use laws::worked_examples;
pub use text::write_value;
pub use value::Value;

#[cfg(test)]
mod tests;
