//! Equality of trees is decided. A function without a body states laws by its contract.
#![tactic(auto)]

ghost use Rattle.theory_trees_decided.specs.Laws.{TreesAreDecided};

/// Two trees are equal or they aren't.
pub fn trees_are_decided()
    ensures law { TreesAreDecided }
{}
