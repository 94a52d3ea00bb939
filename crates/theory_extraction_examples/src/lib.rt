//! Programs that are taken by hand from their instances to their code. A function without a body states laws
//! by its contract.
#![tactic(auto)]

ghost use Rattle.theory_extraction_examples.specs.Captures.{WorkedCaptures};
ghost use Rattle.theory_extraction_examples.specs.Heads.{WorkedHeads};
ghost use Rattle.theory_extraction_examples.specs.Handed.{WorkedHanded};
ghost use Rattle.theory_extraction_examples.specs.Branches.{WorkedBranches};

/// A recursive function that captures two variables: its instances, its flat bodies, and a run of its code.
pub fn worked_captures()
    ensures examples { WorkedCaptures }
{}

/// A recursive function with captured variables that is handed to another: the same.
pub fn worked_handed()
    ensures examples { WorkedHanded }
{}

/// Calls of one head: with other fixed arguments, with a function that is written twice, and of itself as an
/// argument.
pub fn worked_heads()
    ensures examples { WorkedHeads }
{}

/// Branches within branches and behind other steps: where their jumps go.
pub fn worked_branches()
    ensures examples { WorkedBranches }
{}
