//! What heads with arguments, steps and bindings come to, by the results of their parts: the laws that a substitution
//! over rows goes by. A function without a body states a law by its contract.
#![tactic(auto)]

ghost use Rattle.theory_rows_heads.specs.Laws.{OnePart, KindStays, OneHead, HeadsAreTerms, TermsHaveHeads, VariableGives};
ghost use Rattle.theory_rows_heads.specs.Laws.{VariableStays, FixedHeadStays, ApplicationHasParts, ApplicationStays};
ghost use Rattle.theory_rows_heads.specs.Laws.{ApplicationGives, ApplicationIsRedex, InstanceHasHead, InstanceStays};
ghost use Rattle.theory_rows_heads.specs.Laws.{InstanceGives, InstanceIsRedex, RunHasParts, RunStays, RunGives};
ghost use Rattle.theory_rows_heads.specs.Laws.{RunIsSpliced, StepHasParts, StepStays, BoundResult, ResultIsBound};
ghost use Rattle.theory_rows_heads.specs.Laws.{BoundStep, StepIsBound};

/// What a part becomes is one, and of the part's kind.
pub fn parts_become_one()
    ensures one { OnePart }
    ensures kind { KindStays }
{}

/// What a head becomes is one, and what is left of its skeleton; it is what the term becomes.
pub fn heads_become_one()
    ensures one { OneHead }
    ensures terms { HeadsAreTerms }
    ensures heads { TermsHaveHeads }
{}

/// A variable becomes the new term if it is the one that the term is put for, and stays else; other heads stay.
pub fn heads_without_arguments()
    ensures gives { VariableGives }
    ensures stays { VariableStays }
    ensures fixed { FixedHeadStays }
{}

/// A head with an argument: its parts have results, and it stays or is reduced by them.
pub fn heads_with_arguments()
    ensures parts { ApplicationHasParts }
    ensures stays { ApplicationStays }
    ensures gives { ApplicationGives }
    ensures redex { ApplicationIsRedex }
{}

/// A head with a monotype, in the same way.
pub fn heads_with_monotypes()
    ensures parts { InstanceHasHead }
    ensures stays { InstanceStays }
    ensures gives { InstanceGives }
    ensures redex { InstanceIsRedex }
{}

/// A run step stays, or the steps of what it comes to run take its place; each other step stays.
pub fn steps_stay_or_are_replaced()
    ensures parts { RunHasParts }
    ensures stays { RunStays }
    ensures gives { RunGives }
    ensures spliced { RunIsSpliced }
    ensures step { StepHasParts }
    ensures before { StepStays }
{}

/// A computation and then another, by the first one's last step.
pub fn computations_are_bound()
    ensures result { BoundResult }
    ensures bound { ResultIsBound }
    ensures step { BoundStep }
    ensures before { StepIsBound }
{}
