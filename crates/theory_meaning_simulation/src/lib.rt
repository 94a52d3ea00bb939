//! What a text does by closures and fuel, the denotation of its canonical form does with no more fuel:
//! evaluation knows no canonical form, and substitution is never followed step by step. A function
//! without a body states a law by its contract.
#![tactic(auto)]

ghost use Rattle.theory_meaning_simulation.specs.Laws.{TextIsDenoted};

/// A term or computation of the text does what its canonical form denotes.
pub fn text_is_denoted()
    ensures law { TextIsDenoted }
{}
