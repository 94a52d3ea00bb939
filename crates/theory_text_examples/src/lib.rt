//! Texts whose items, trees and refusals were worked out by hand. A function without a body states laws
//! by its contract.
#![tactic(auto)]

ghost use Rattle.theory_text_examples.specs.Examples.{Proofs, Refusals, Scoping, Sugars};
ghost use Rattle.theory_text_examples.specs.LimitExamples.{Limits};

/// What short texts stand for, or where they are refused.
pub fn worked_texts()
    ensures refusals { Refusals }
    ensures scoping { Scoping }
    ensures sugars { Sugars }
    ensures proofs { Proofs }
{}

/// Which trees are within the limits, and which limit is passed first.
pub fn worked_limits()
    ensures law { Limits }
{}
