//! What holds of every heap.

ghost use Rattle.theory_values.specs.Heaps.{IsHeap};
ghost use Rattle.heap_model_flat.specs.Blocks.{blocks_of};
ghost use Rattle.heap_model_flat.specs.Laws.{ListingLaws};

use crate::heap::Heap;

/// A heap has at most one listing, and so one size.
pub fn listing_laws()
    ensures laws { ListingLaws }
{}

/// By its type, each block of a heap stands at a word other than 0 and holds words. A proof may cite
/// `blocks_are_heap` of `proofs/BlockLemmas` instead.
#[tactic(auto, using(crate::proofs::BlockLemmas::blocks_are_heap))]
pub fn blocks_are_heap(heap: &Heap)
    ensures is_heap { IsHeap (blocks_of heap.now) }
{}
