//! When a value of the text realises a denotation: what the denotation comes to, the text comes to from
//! some fuel on. The relation goes by the type, as `theory_meaning_simulation` has it the other way
//! round, and has no bound on fuel. A function without a body states a law by its contract.
#![tactic(auto)]

ghost use Rattle.theory_adequacy.specs.Examples.{WorkedExamples};
ghost use Rattle.theory_adequacy.specs.Laws.{RealisationReindexes, RecursionIsRealised};

/// Renaming and substitution in a type are reindexing of the valuation, and positions say nothing.
pub fn realisation_reindexes()
    ensures law { RealisationReindexes }
{}

/// A recursive function of the text realises what the recursion denotes.
pub fn recursion_is_realised()
    ensures law { RecursionIsRealised }
{}

/// Values of the text that realise denotations, and some that don't.
pub fn worked_examples()
    ensures law { WorkedExamples }
{}
