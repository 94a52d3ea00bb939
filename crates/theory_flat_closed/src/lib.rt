//! Lists of instances are closed under calls. A function without a body states laws by its contract.
#![tactic(auto)]

ghost use Rattle.theory_flat_closed.specs.Laws.{ListsAreClosed};

/// Each call in a list of instances is one of an instance of the list, of which there are no more than the
/// limit allows, and the first of which is main, without parameters.
pub fn lists_are_closed()
    ensures law { ListsAreClosed }
{}
