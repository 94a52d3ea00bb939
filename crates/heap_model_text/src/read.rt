//! The reader of a heap file. It takes one line after the other: each is cut off at its line feed,
//! its location at the colon, and each word at the next space. What isn't the one spelling of a
//! block whose location is above the last one makes the line bad.

ghost use Rattle.std.specs.Prelude.{IfOk, IfErr, MatchResult};
ghost use Rattle.heap_model_flat.specs.Blocks.{blocks_of};
ghost use Rattle.heap_model_text.specs.HeapText.{IsHeapFile, IsBadLine};
ghost use Rattle.heap_model_text.specs.Stops.{HasCause};

use crate::cutting::cut;
use crate::line::line_of;
use crate::stop::HeapStop;
use heap_model_flat::Heap;
use std::alloc::{AllocError, Global};

/// The heap of a heap file: a line for each block, whose location is above the one before it and
/// below 2^63. It stops exactly where the bytes are no such text, at the first bad line, or for want
/// of memory.
pub fn read_heap(alloc: Global, bytes: &[u8]) -> Result<Heap, HeapStop>
    ensures heap { IfOk result (λ heap. IsHeapFile bytes.now (blocks_of heap)) }
    ensures bad { IfErr result (λ stop. HasCause bytes.now stop) }
{
    match read_lines(alloc, bytes) {
        Ok(Ok(heap)) => Ok(heap),
        Ok(Err(line)) => Err(HeapStop::BadHeap { line }),
        Err(_) => Err(HeapStop::NoMemory),
    }
}

/// The heap, or the number of the first bad line.
fn read_lines(alloc: Global, bytes: &[u8]) -> Result<Result<Heap, u64>, AllocError>
    ensures { IfOk result (λ read. MatchResult read (λ heap. IsHeapFile bytes.now (blocks_of heap)) (λ line. IsBadLine bytes.now line)) }
{
    let mut heap = Heap::new(alloc);
    let mut rest = bytes;
    let mut last = 0;
    let mut line = 1;
    while !rest.is_empty() {
        let (text, end) = cut(rest, b'\n');
        let Some((_, after)) = end.split_first() else {
            return Ok(Err(line));
        };
        let Some(next) = line_of(alloc, text, last)? else {
            return Ok(Err(line));
        };
        last = next.at;
        heap.put(next.at, next.block)?;
        rest = after;
        line += 1;
    }
    Ok(Ok(heap))
}
