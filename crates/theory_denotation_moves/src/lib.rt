//! Each step of a computation is sound for its state. First local reasoning: what each step on a heap
//! needs and changes is its own part, beside every frame. Then states: no fault where what is owed is
//! true, and the next state holds beside the same frame. A function without a body states a law by its
//! contract.
#![tactic(auto)]

ghost use Rattle.theory_denotation_moves.specs.FrameLaws.{StepsAreLocal};
ghost use Rattle.theory_denotation_moves.specs.Laws.{MovesAreSound};

/// Allocation, reading, writing and release touch their own part of the heap alone.
pub fn steps_are_local()
    ensures law { StepsAreLocal }
{}

/// Where a run stands in a state and what the step owes is true, the step never goes wrong, and where
/// it ends the run stands in the next state beside the same frame.
pub fn moves_are_sound()
    ensures law { MovesAreSound }
{}
