//! What is owed is formed. A function without a body states the law by its contract.
#![tactic(auto)]

ghost use Rattle.theory_formed_obligations.specs.Laws.{OwedStandsFormed};

/// The contexts and the goals of what the typing rules owe are formed.
pub fn owed_stands_formed()
    ensures law { OwedStandsFormed }
{}
