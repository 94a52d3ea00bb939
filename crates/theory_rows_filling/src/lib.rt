//! Monotypes put in what rows stand for. A function without a body states a law by its contract.
#![tactic(auto)]

ghost use Rattle.theory_rows_filling.specs.Laws.{FilledSlotBySlot};

/// Whatever its form but that of a monotype variable, what a form stands for is filled slot by slot, and folded.
pub fn filling_goes_through_forms()
    ensures law { FilledSlotBySlot }
{}
