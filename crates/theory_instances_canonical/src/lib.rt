//! The instances of a canonical program are canonical. A function without a body states laws by its contract.
#![tactic(auto)]

ghost use Rattle.theory_instances_canonical.specs.Laws.{InstancesAreCanonical};

/// Keys and bodies of the instances of a canonical program are canonical, with the made functions of all
/// instances as heads.
pub fn instances_are_canonical()
    ensures law { InstancesAreCanonical }
{}
