//! Why a file gave no heap.

/// Why a file gave no heap.
#[derive(Clone, Copy, Debug, PartialEq, Eq)]
pub enum HeapStop {
    /// The bytes aren't heap text. The line is the first bad one, counted from 1.
    BadHeap { line: u64 },
    /// Memory ran out.
    NoMemory,
}
