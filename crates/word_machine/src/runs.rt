//! A run with the shipped choices: the location of a new block is one more than the greatest that the
//! run has used. Before each step the limits are tested: first that on steps, then those on frames and
//! on the heap.

ghost use Rattle.std.specs.Prelude.{ℕ, ◌≡◌, ◌-◌, ◌<◌, ◌≤◌, ◌^◌, IfOk};
ghost use Rattle.theory_values.specs.Heaps.{InUse};
ghost use Rattle.word_loader_code.specs.Valid.{IsValid};
ghost use Rattle.heap_model_flat.specs.Blocks.{blocks_of};
ghost use Rattle.word_machine.specs.Steps.{next_fresh};
ghost use Rattle.word_machine.specs.Runs.{EndsShipped};

use crate::machine::start;
use crate::stepped::Stepped;
use heap_model_flat::Heap;
use htt_syntax_seq::Seq;
use htt_syntax_words::{Bound, Kind};
use std::alloc::{AllocError, Global};
use word_loader_code::{Code, Instr};

/// How a run ended.
#[derive(Drop)]
pub enum End {
    /// The machine halted with these words and this heap.
    Halted(Seq<u64>, Heap),
    /// The machine faulted at this kind of instruction, for want of a fitting block at this location.
    Fault(Kind, u64),
    /// This limit stopped the run, at this total: of steps those that were done, of frames or the heap
    /// what the next instruction would have reached.
    Stopped(Bound, u64),
}

/// Runs the code from this heap for at most this many steps. Want of memory is the only error.
pub fn run(alloc: Global, code: &Code, heap: Heap, steps: u64) -> Result<End, AllocError>
    requires valid { IsValid code.now }
    requires low { (l : ℕ) → InUse (blocks_of heap) l → l < 2 ^ 63 }
    requires few { steps ≤ 1000000000 }
    ensures { IfOk result (λ end. EndsShipped code.now (blocks_of heap) steps end) }
{
    let mut fresh = heap.greatest() + 1;
    let Ok(mut machine) = start(alloc, code, heap) else {
        return Err(AllocError);
    };
    for _ in 0..steps {
        let (function, instr) = machine.next_instr(code);
        if let Some((bound, total)) = machine.passed(code, instr)? {
            return Ok(End::Stopped(bound, total));
        }
        match machine.go(code, function, instr, fresh)? {
            Stepped::Going => fresh = next_fresh(instr, fresh),
            Stepped::Halted => return Ok(machine.into_halt()),
            Stepped::Fault(kind, at) => return Ok(End::Fault(kind, at)),
            Stepped::Asks => unreachable!(),
        }
    }
    Ok(End::Stopped(Bound::Step, steps))
}

/// The next location to choose, after this instruction with this one to choose.
fn next_fresh(instr: Instr, fresh: u64) -> u64
    requires { fresh < 2 ^ 64 - 1 }
    ensures { result ≡ next_fresh (Some instr) fresh }
{
    match instr {
        Instr::Alloc(..) => fresh + 1,
        _ => fresh,
    }
}
