//! The denotation is adequate: what the canonical form of a typed term or computation denotes, its text
//! comes to from some fuel on. So both have the same outcomes. A function without a body states a law by
//! its contract.
#![tactic(auto)]

ghost use Rattle.theory_adequacy_terms.specs.Laws.{DenotationIsAdequate, OutcomesAreSame};

/// What the canonical form of a term or computation denotes, its text comes to.
pub fn denotation_is_adequate()
    ensures law { DenotationIsAdequate }
{}

/// A computation without variables and its denotation have the same outcomes.
pub fn outcomes_are_same()
    ensures law { OutcomesAreSame }
{}
