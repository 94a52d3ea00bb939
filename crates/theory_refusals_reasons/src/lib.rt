//! Tokens that are refused rightly are so at one place, for one reason: a token at which one tree is
//! too deep begins no operand too many in another. A function without a body states laws by its
//! contract.
#![tactic(auto)]

ghost use Rattle.theory_refusals_reasons.specs.Laws.{FileHasOneRefusal, FormulaHasOneRefusal, MonoHasOneRefusal, ProofHasOneRefusal};

/// No two refusals are right for the same tokens.
pub fn tokens_have_one_right_refusal()
    ensures monotypes { MonoHasOneRefusal }
    ensures formulas { FormulaHasOneRefusal }
    ensures proofs { ProofHasOneRefusal }
    ensures files { FileHasOneRefusal }
{}
