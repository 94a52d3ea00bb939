//! A formed tree is canonical. A function without a body states the law by its contract.
#![tactic(auto)]

ghost use Rattle.theory_formed_canonical.specs.Laws.{FormedIsCanonical};

/// A formed tree is canonical, at the skeleton of its shape.
pub fn formed_is_canonical()
    ensures law { FormedIsCanonical }
{}
