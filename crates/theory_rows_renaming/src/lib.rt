//! Renaming of what rows stand for: it goes through a form slot by slot. A function without a body states a law by
//! its contract.
#![tactic(auto)]

ghost use Rattle.theory_rows_renaming.specs.Laws.{KindsStay, RenamedSlotBySlot, SlotsStay};

/// What a form stands for over its parts is renamed by renaming the form and each part under its binders.
pub fn renaming_goes_through_forms()
    ensures law { RenamedSlotBySlot }
    ensures slots { SlotsStay }
    ensures kinds { KindsStay }
{}
