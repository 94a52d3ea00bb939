//! The machine, its start and its step. A machine that is over keeps how it ended beside its heap and
//! frames; after a halt the only frame has the returned words as its locals.

ghost use Rattle.std.specs.Prelude.{ℕ, ◌≡◌, List, [], IfOk, OnErr, IfErr, slice_get};
ghost use Rattle.word_loader_code.specs.Valid.{IsValid};
ghost use Rattle.word_loader_code.specs.Machine.{started, top};
ghost use Rattle.theory_machine.specs.Fits.{FitsCode, function_of};
ghost use Rattle.heap_model_flat.specs.Blocks.{blocks_of};
ghost use Rattle.word_machine.specs.States.{state_of, over_after, over_answer};
ghost use Rattle.word_machine.specs.Steps.{StepsTo, next_of, IsGoing, IsHalted};
ghost use Rattle.word_machine.specs.Ends.{HaltsAs};

use crate::runs::End;
use crate::stepped::Stepped;
use heap_model_flat::Heap;
use htt_syntax_seq::Seq;
use htt_syntax_words::Kind;
use std::alloc::{AllocError, Global};
use word_loader_code::{Code, Function, Instr};
use word_machine_frames::Frames;

/// How a machine ended.
#[derive(Clone, Copy, Debug, PartialEq, Eq)]
pub(crate) enum Over {
    Halted,
    Fault(Kind, u64),
}

/// A machine with its heap and its frames. Contracts see it as a state of the written machine,
/// `state_of`.
#[derive(Drop)]
pub struct Machine {
    pub(crate) heap: Heap,
    pub(crate) frames: Frames,
    pub(crate) over: Option<Over>,
}

/// Memory was wanting at the start. The heap is handed back.
#[derive(Drop)]
pub struct StartStop {
    pub heap: Heap,
}

/// A machine that enters function 0 of the code, with this heap and locals 0.
pub fn start(alloc: Global, code: &Code, heap: Heap) -> Result<Machine, StartStop>
    requires { IsValid code.now }
    ensures starts { IfOk result (λ machine. state_of machine ≡ started (slice_get code.now.functions 0) (blocks_of heap) []) }
    ensures fits { IfOk result (λ machine. FitsCode code.now (state_of machine)) }
    ensures handed_back { IfErr result (λ stop. stop.heap ≡ heap) }
{
    let main = &code.functions.as_slice()[0];
    match Frames::enter(alloc, main.locals) {
        Ok(frames) => Ok(Machine {
            heap,
            frames,
            over: None,
        }),
        Err(_) => Err(StartStop { heap }),
    }
}

impl Machine {
    /// The top frame's function and the next instruction of a machine that goes on.
    pub(crate) fn next_instr<'c>(&self, code: &'c Code) -> (&'c Function, Instr)
        requires fits { FitsCode code.now (state_of self.now) }
        requires going { IsGoing (state_of self.now) }
        ensures function { function_of code.now (top self.now.frames) ≡ Some result.0.now }
        ensures instr { slice_get result.0.now.body (top self.now.frames).next ≡ Some result.1 }
        ensures next { next_of code.now (state_of self.now) ≡ Some result.1 }
    {
        let function = &code.functions.as_slice()[self.frames.function() as usize];
        (
            function,
            function.body.as_slice()[self.frames.next() as usize],
        )
    }

    /// The returned words and the heap of a machine that has halted. It takes no memory.
    pub(crate) fn into_halt(self) -> End
        requires { IsHalted (state_of self) }
        ensures { HaltsAs (state_of self) result }
    {
        let Machine {
            heap,
            frames,
            over: _,
        } = self;
        End::Halted(Seq::of(frames.into_words()), heap)
    }

    /// One step of the written machine, with `fresh` as its first choice of a location, whatever
    /// choices stand behind it. A machine that is over answers the same again and doesn't read
    /// `fresh`. It takes memory at `alloc`, `call` and `tail` alone; after an error nothing has
    /// changed.
    pub fn step(&mut self, code: &Code, fresh: u64) -> Result<Stepped, AllocError>
        requires valid { IsValid code.now }
        requires fits { FitsCode code.now (state_of self.old) }
        ensures steps { IfOk result (λ stepped. (rest : List ℕ) → StepsTo code.now (state_of self.old) fresh rest stepped (state_of self.new)) }
        ensures unchanged { OnErr result (state_of self.new ≡ state_of self.old) }
        ensures fits { FitsCode code.now (state_of self.new) }
    {
        if let Some(over) = self.over {
            return Ok(answer_of(over));
        }
        let (function, instr) = self.next_instr(code);
        self.go(code, function, instr, fresh)
    }

    /// `step` of a machine that goes on, which has this function in its top frame and this
    /// instruction next.
    pub(crate) fn go(
        &mut self,
        code: &Code,
        function: &Function,
        instr: Instr,
        fresh: u64,
    ) -> Result<Stepped, AllocError>
        requires valid { IsValid code.now }
        requires fits { FitsCode code.now (state_of self.old) }
        requires going { IsGoing (state_of self.old) }
        requires function { function_of code.now (top self.old.frames) ≡ Some function.now }
        requires instr { slice_get function.now.body (top self.old.frames).next ≡ Some instr }
        ensures steps { IfOk result (λ stepped. (rest : List ℕ) → StepsTo code.now (state_of self.old) fresh rest stepped (state_of self.new)) }
        ensures unchanged { OnErr result (state_of self.new ≡ state_of self.old) }
        ensures fits { FitsCode code.now (state_of self.new) }
    {
        match self.perform(code, function, instr, fresh)? {
            Stepped::Going => Ok(Stepped::Going),
            stepped => {
                self.over = over_after(stepped);
                Ok(stepped)
            }
        }
    }
}

/// How the machine is over after a step, if it is.
fn over_after(stepped: Stepped) -> Option<Over>
    ensures { result ≡ over_after stepped }
{
    match stepped {
        Stepped::Halted => Some(Over::Halted),
        Stepped::Fault(kind, at) => Some(Over::Fault(kind, at)),
        Stepped::Going | Stepped::Asks => None,
    }
}

/// What a machine that is over answers.
fn answer_of(over: Over) -> Stepped
    ensures { result ≡ over_answer over }
{
    match over {
        Over::Halted => Stepped::Halted,
        Over::Fault(kind, at) => Stepped::Fault(kind, at),
    }
}
