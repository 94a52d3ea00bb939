//! Each monotype that a flat body writes is within its limit. A function without a body states laws by its
//! contract.
#![tactic(auto)]

ghost use Rattle.theory_flat_narrow.specs.Laws.{InstancesAreNarrow};

/// The results and the bodies of the instances of a program whose terms have no monotype past the limit have
/// none either.
pub fn instances_are_narrow()
    ensures law { InstancesAreNarrow }
{}
