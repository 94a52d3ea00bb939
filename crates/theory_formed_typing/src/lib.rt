//! The typing rules give formed trees. A function without a body states the law by its contract.
#![tactic(auto)]

ghost use Rattle.theory_formed_typing.specs.Laws.{TypingGivesFormed};

/// In a canonical environment whose definitions' terms have their types' shapes, and a canonical context,
/// the typing rules make formed types, terms, formulas and computations. In a formed environment and context
/// the types that they give are formed too.
pub fn typing_gives_formed()
    ensures law { TypingGivesFormed }
{}
