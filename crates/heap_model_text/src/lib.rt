//! Heap text: a line for each block of a heap, by ascending location, as `5: 42 7` for the words 42
//! and 7 at location 5. `write_heap` gives the text of a heap. `read_heap` reads a file with such a
//! text, and names its first bad line. The parts of a line are cut at their marks, since no decimal
//! holds one, and a decimal is read in the one spelling that is written.
#![tactic(auto)]

mod cutting;
mod laws;
mod line;
mod read;
mod stop;
mod write;

pub use laws::{heap_text_laws, worked_examples};
pub use read::read_heap;
pub use stop::HeapStop;
pub use write::write_heap;

#[cfg(test)]
mod tests;
