//! The instances of a formed program are formed. A function without a body states laws by its contract.
#![tactic(auto)]

ghost use Rattle.theory_instances_formed.specs.Laws.{InstancesAreFormed};

/// Keys and bodies of the instances of a formed program are formed, the bodies under the parameters.
pub fn instances_are_formed()
    ensures law { InstancesAreFormed }
{}
