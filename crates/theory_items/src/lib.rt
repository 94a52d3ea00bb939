//! The declarations of a file but for its proofs: what each adds to its environment and owes. A function
//! without a body states laws by its contract.
#![tactic(auto)]

ghost use Rattle.theory_items.specs.Examples.{WorkedExamples};
ghost use Rattle.theory_items.specs.Laws.{ItemsGiveOne, ItemsKeepCanonical, ItemsKeepDefined, MoreKeepsTyping};

/// An item gives at most one environment and at most one list of obligations.
pub fn items_give_one()
    ensures law { ItemsGiveOne }
{}

/// An item keeps its environment canonical, and the goals that it owes are canonical.
pub fn items_keep_canonical()
    ensures law { ItemsKeepCanonical }
{}

/// What is formed or typed where some declarations stand is so where more stand, and owes the same.
pub fn more_keeps_typing()
    ensures law { MoreKeepsTyping }
{}

/// Each definition's term is the form of a term that fits its type with the definitions before it alone:
/// so before any item, and an item that derives keeps it.
pub fn items_keep_defined()
    ensures law { ItemsKeepDefined }
{}

/// Items, worked out by hand.
pub fn worked_examples()
    ensures examples { WorkedExamples }
{}
