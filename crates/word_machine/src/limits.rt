//! The limits of a run on its frames and its heap.

ghost use Rattle.std.specs.Prelude.{◌≡◌, ◌+◌, None, if◌then◌else◌, nat_lt, IfOk};
ghost use Rattle.heap_model_flat.specs.Blocks.{blocks_of};
ghost use Rattle.word_machine.specs.Limits.{NamesFunction, IsPassed};
ghost use Rattle.word_machine.specs.Runs.{PassesLimit};

use crate::machine::Machine;
use htt_syntax_words::Bound;
use std::alloc::AllocError;
use word_loader_code::{Code, Instr};

/// The most locals plus 1, over all frames.
const FRAME_LIMIT: u64 = 16_000_000;

/// The most words plus 1, over all blocks of the heap.
const HEAP_LIMIT: u64 = 16_000_000;

impl Machine {
    /// The limit that this next instruction would pass, with the total that it would reach. Memory is
    /// wanting for a total that isn't a number of 64 bits.
    pub(crate) fn passed(
        &self,
        code: &Code,
        instr: Instr,
    ) -> Result<Option<(Bound, u64)>, AllocError>
        requires { NamesFunction code.now instr }
        ensures { IfOk result (λ passed. IsPassed (PassesLimit code.now (blocks_of self.now.heap) self.now.frames (Some instr)) passed) }
    {
        match instr {
            Instr::Call(g, _, _) => {
                let callee = &code.functions.as_slice()[g as usize];
                let more = callee.locals as u64 + 1;
                past(Bound::Frame, self.frames.total(), more, FRAME_LIMIT)
            }
            Instr::Tail(g, _) => {
                let callee = &code.functions.as_slice()[g as usize];
                let more = callee.locals as u64 + 1;
                past(Bound::Frame, self.frames.total_below(), more, FRAME_LIMIT)
            }
            Instr::Alloc(_, _, n) => {
                past(Bound::Heap, self.heap.size(), n as u64 + 1, HEAP_LIMIT)
            }
            _ => Ok(None),
        }
    }
}

/// The limit with the total, where the total is above it.
fn past(bound: Bound, total: u64, more: u64, limit: u64) -> Result<Option<(Bound, u64)>, AllocError>
    ensures { IfOk result (λ passed. passed ≡ (if nat_lt limit (total + more) then Some (bound, total + more) else None)) }
{
    let sum = total.checked_add(more).ok_or(AllocError)?;
    if sum > limit {
        Ok(Some((bound, sum)))
    } else {
        Ok(None)
    }
}
