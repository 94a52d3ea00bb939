//! What fits a type denotes in the type's shape, whether or not what it owes is true. So proofs may be
//! read before any obligation is known to hold. A function without a body states the law by its
//! contract.
#![tactic(auto)]

ghost use Rattle.theory_typing_shaped.specs.Laws.{TypingGivesShape};

/// In a sound environment what fits or gives a type denotes in the shape of the type.
pub fn typing_gives_shape()
    ensures law { TypingGivesShape }
{}
