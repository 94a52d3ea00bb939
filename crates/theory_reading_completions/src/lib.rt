//! With which tokens phrases begin; and in `proofs/`, on which the crate of refusals stands: where a
//! reader stops, what it read begins some tree, and at a limit so does what it read with the refused
//! token. A function without a body states laws by its contract.
#![tactic(auto)]

ghost use Rattle.theory_reading_completions.specs.Laws.{CompStarts, DeclStarts, FormulaStarts, MonoStarts, ProofStarts, TermStarts, TypeStarts};

/// Each token with which a phrase is said to begin begins one, at every level.
pub fn phrases_begin_as_is_said()
    ensures monotypes { MonoStarts }
    ensures types { TypeStarts }
    ensures terms { TermStarts }
    ensures computations { CompStarts }
    ensures formulas { FormulaStarts }
    ensures proofs { ProofStarts }
    ensures declarations { DeclStarts }
{}
