//! What a call of a value denotes. A function without a body states laws by its contract.
#![tactic(auto)]

ghost use Rattle.theory_instances_called.specs.Laws.{CallsOfValuesDenote};

/// Where each use of a value takes one unit of fuel, a call of it denotes the body of its instance, entered
/// with the captured values and those that are passed.
pub fn calls_of_values_denote()
    ensures law { CallsOfValuesDenote }
{}
