//! The counts of nodes and the depth of trees, which the limits speak of. A function without a body
//! states laws by its contract.
#![tactic(auto)]

ghost use Rattle.theory_counts.specs.Examples.{WorkedCounts};
ghost use Rattle.theory_counts.specs.Laws.{DepthWithinNodes, RenamingKeepsDepth, RenamingKeepsNodes};

/// A renamed tree has as many nodes, and is as deep.
pub fn renaming_keeps_counts()
    ensures nodes { RenamingKeepsNodes }
    ensures depth { RenamingKeepsDepth }
{}

/// A tree is no deeper than it has nodes.
pub fn depth_within_nodes()
    ensures law { DepthWithinNodes }
{}

/// Counts that were worked out by hand.
pub fn worked_counts()
    ensures examples { WorkedCounts }
{}
