//! Triples with frame: what a run from a heap whose one part makes a precondition true comes to. A
//! function without a body states a law by its contract.
#![tactic(auto)]

ghost use Rattle.theory_triples.specs.Examples.{WorkedExamples};
ghost use Rattle.theory_triples.specs.Laws.{TripleLaws};

/// The part of the end's heap that isn't the frame is determined, and a triple that isn't denied is
/// one.
pub fn triple_laws()
    ensures laws { TripleLaws }
{}

/// The definitions give these examples.
pub fn worked_examples()
    ensures examples { WorkedExamples }
{}
