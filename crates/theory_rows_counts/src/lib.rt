//! The nodes of what rows stand for. A function without a body states a law by its contract.
#![tactic(auto)]

ghost use Rattle.theory_rows_counts.specs.Laws.{NodesAddUp};

/// The nodes of what a form stands for are its own and those of its parts.
pub fn nodes_add_up()
    ensures law { NodesAddUp }
{}
