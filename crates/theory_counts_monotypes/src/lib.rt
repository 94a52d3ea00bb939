//! The nodes of the greatest monotype of a tree, which a limit speaks of. A function without a body
//! states laws by its contract.
#![tactic(auto)]

ghost use Rattle.theory_counts_monotypes.specs.Examples.{WorkedCounts};

/// Counts that were worked out by hand.
pub fn worked_counts()
    ensures examples { WorkedCounts }
{}
