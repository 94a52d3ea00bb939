//! What the heads of instances denote. A function without a body states laws by its contract.
#![tactic(auto)]

ghost use Rattle.theory_instances_heads.specs.Laws.{InstancesHaveHeads};

/// The heads of a canonical program's instances denote: each use of a value enters its term, and the made
/// function of a key is the key's head with its fixed arguments pinned.
pub fn instances_have_heads()
    ensures law { InstancesHaveHeads }
{}
