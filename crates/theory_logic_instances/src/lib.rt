//! Instances of axioms are true in the worlds of a context, at canonical arguments, and so at the canonical
//! forms of written ones. A function without a body states the law by its contract.
#![tactic(auto)]

ghost use Rattle.theory_logic_instances.specs.Laws.{InstancesAreTrue};

/// Each instance of an axiom at canonical arguments of its sorts is true in each world of the context; so it
/// is at the canonical forms of arguments that fit the sorts.
pub fn instances_are_true()
    ensures law { InstancesAreTrue }
{}
