//! The writer of heap text.

ghost use Rattle.std.specs.Prelude.{◌≡◌, ◌++◌, ◌∷◌, [], Some, IfOk, OnOk, string_bytes};
ghost use Rattle.theory_values.specs.Heaps.{Block};
ghost use Rattle.heap_model_flat.specs.Blocks.{blocks_of};
ghost use Rattle.heap_model_text.specs.HeapText.{block_text, words_text, IsHeapText};

use heap_model_flat::Heap;
use std::alloc::{AllocError, Global};

/// The text of a heap. The only error is want of memory.
pub fn write_heap(alloc: Global, heap: &Heap) -> Result<Vec<u8>, AllocError>
    ensures text { IfOk result (λ text. IsHeapText (blocks_of heap.now) text.items) }
{
    let mut text = String::new(alloc);
    let mut last = 0;
    while let Some(at) = heap.above(last) {
        push_line(&mut text, heap, at)?;
        last = at;
    }
    Ok(text.into_bytes())
}

/// Appends the line of the block at the location, if there is one.
fn push_line(text: &mut String, heap: &Heap, at: u64) -> Result<(), AllocError>
    ensures { OnOk result ((b : Block) → blocks_of heap.now at ≡ Some b
        → string_bytes text.new ≡ string_bytes text.old ++ (block_text (at, b) ++ 10 ∷ [])) }
{
    let Some(block) = heap.get(at) else {
        return Ok(());
    };
    write!(text, "{at}:")?;
    push_words(text, block)?;
    text.push_str("\n")
}

/// Appends a space and a decimal for each word.
fn push_words(text: &mut String, block: &[u64]) -> Result<(), AllocError>
    ensures { OnOk result (string_bytes text.new ≡ string_bytes text.old ++ words_text block.now) }
{
    for word in block {
        write!(text, " {word}")?;
    }
    Ok(())
}
