//! What holds of all canonical computations, by one theorem on relations of computations: a relation
//! that is kept by all of which computations are made holds of each denotation. A function without a
//! body states a law by its contract.
#![tactic(auto)]

ghost use Rattle.theory_denotation_relations.specs.Laws.{OutcomesHandOnChoices, FilesAreValued, MoreFuelKeepsOutcomes};

/// An outcome other than want of fuel stays the same with more fuel.
pub fn more_fuel_keeps()
    ensures law { MoreFuelKeepsOutcomes }
{}

/// A computation that doesn't ask for a location comes to the same with further choices, and hands
/// them on.
pub fn choices_are_handed_on()
    ensures law { OutcomesHandOnChoices }
{}

/// Each value of a file denotes at its skeleton, which ends in a computation.
pub fn files_are_valued()
    ensures law { FilesAreValued }
{}
