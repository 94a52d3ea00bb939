//! What instances and calls denote. A function without a body states laws by its contract.
#![tactic(auto)]

ghost use Rattle.theory_instances_linked.specs.Laws.{CallsDenote, InstancesDenote};

/// The head of an instance, at its fixed arguments and passed values, enters the body of the instance.
pub fn instances_denote()
    ensures law { InstancesDenote }
{}

/// A call enters the body of the instance that it names, with the values of the parameters that it gives.
pub fn calls_denote()
    ensures law { CallsDenote }
{}
