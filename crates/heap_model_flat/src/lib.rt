//! Heaps: finite maps from locations other than 0 to blocks of words, the blocks as they are needed
//! by a machine that allocates, reads, writes and frees them. Contracts see a heap as the blocks that
//! it has at each location.
#![tactic(auto)]

mod heap;
mod laws;
mod span;

pub use heap::Heap;
pub use laws::{blocks_are_heap, listing_laws};
