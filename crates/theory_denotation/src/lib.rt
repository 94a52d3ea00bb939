//! What canonical trees denote: a value at a monotype, a function at a function type, a family over
//! monotypes, and a computation by fuel, heap and choices at a Hoare type; and truth of formulas in
//! valuations that give such denotations. Outcomes come first, then what a valuation gives, recursion
//! by fuel, and the denotation. A function without a body states a law by its contract.
#![tactic(auto)]

ghost use Rattle.theory_denotation.specs.Examples.{WorkedExamples};
ghost use Rattle.theory_denotation.specs.Laws.{FirstOrderAgrees, HeadsDenote, SatisfactionIsClassical, StepsAgree};

/// A head with its arguments denotes at its skeleton, and of a monotype it denotes the term's value.
pub fn heads_denote()
    ensures law { HeadsDenote }
{}

/// Where all term variables are of monotypes, the denotation of a canonical term is its value in the
/// world, and a canonical formula is satisfied exactly where it holds in the world.
pub fn first_order_agrees()
    ensures law { FirstOrderAgrees }
{}

/// Truth in valuations is stable under double negation.
pub fn satisfaction_is_classical()
    ensures law { SatisfactionIsClassical }
{}

/// The steps on a heap come to what they come to in the written meaning.
pub fn steps_agree()
    ensures law { StepsAgree }
{}

/// The definitions compute these examples.
pub fn worked_examples()
    ensures examples { WorkedExamples }
{}
