//! What holds of every run from a heap file.

ghost use Rattle.htt_top.specs.Laws.{HeapFilesFit};

/// A run never starts beyond its limit on the heap: a heap file within its size has no larger heap.
pub fn heap_files_fit()
    ensures law { HeapFilesFit }
{}
