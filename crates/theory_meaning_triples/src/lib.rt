//! The triple of a value's type holds of the run of its text. A function without a body states a law by
//! its contract.
#![tactic(auto)]

ghost use Rattle.theory_meaning_triples.specs.Laws.{TextMeetsTriples};

/// Where the values of a file mean their types and its text does what they denote, the run of a value
/// meets the triple of its type, beside every frame and for all fuel and choices.
pub fn text_meets_triples()
    ensures law { TextMeetsTriples }
{}
