//! A reader decides by what it has read and the next token alone, and greater limits change no answer
//! that doesn't speak of limits. A function without a body states laws by its contract.
#![tactic(auto)]

ghost use Rattle.theory_reading_places.specs.Laws.{FileDecides, FileKeeps, FileStopsStay, FormulaDecides, FormulaKeeps, FormulaStopsStay, MonoDecides, MonoKeeps, MonoStopsStay, ProofDecides, ProofKeeps, ProofStopsStay};

/// An answer is the same whatever follows the next token.
pub fn readers_decide_by_the_next_token()
    ensures monotypes { MonoDecides }
    ensures formulas { FormulaDecides }
    ensures proofs { ProofDecides }
    ensures files { FileDecides }
{}

/// With greater limits the same trees are given, and the same tokens are unexpected.
pub fn greater_limits_keep_answers()
    ensures monotypes { MonoKeeps }
    ensures formulas { FormulaKeeps }
    ensures proofs { ProofKeeps }
    ensures files { FileKeeps }
{}

/// Where one of the two limits is greater and the other is not, a stop at the other stays.
pub fn a_greater_limit_keeps_stops_at_the_other()
    ensures monotypes { MonoStopsStay }
    ensures formulas { FormulaStopsStay }
    ensures proofs { ProofStopsStay }
    ensures files { FileStopsStay }
{}
