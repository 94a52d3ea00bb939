//! The fuel that uses of values take changes no outcome. A function without a body states laws by its contract.
#![tactic(auto)]

ghost use Rattle.theory_fuel_of_values.specs.Laws.{CountedValuesKeepOutcomes, InstanceHeadsKeepOutcomes};

/// A canonical computation has the same outcomes where each use of a value takes fuel and where none does.
pub fn counted_values_keep_outcomes()
    ensures law { CountedValuesKeepOutcomes }
{}

/// A value that is a computation has the same outcomes with the heads of instances.
pub fn instance_heads_keep_outcomes()
    ensures law { InstanceHeadsKeepOutcomes }
{}
