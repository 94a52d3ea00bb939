//! Hereditary substitution of what rows stand for. A function without a body states a law by its contract.
#![tactic(auto)]

ghost use Rattle.theory_rows_substitution.specs.Laws.{PutSlotBySlot, SlotsHaveResults};

/// In a form that is neither a head with arguments nor a step before others, substitution goes slot by slot, and
/// what results is folded.
pub fn substitution_goes_through_forms()
    ensures law { PutSlotBySlot }
{}

/// Where such a form has a result, so has what stands in each of its slots.
pub fn slots_have_results()
    ensures law { SlotsHaveResults }
{}
