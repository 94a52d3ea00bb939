//! Reading stops at the right token, for the right reason: what was read before it begins some tree,
//! and nothing that begins so goes on with this token. A function without a body states laws by its
//! contract.
#![tactic(auto)]

ghost use Rattle.theory_refusals.specs.Examples.{WorkedRefusals};
ghost use Rattle.theory_refusals.specs.Laws.{FileHasOnePlace, FileIsRefused, FormulaHasOnePlace, FormulaIsEnded, FormulaIsRefused, MonoHasOnePlace, MonoIsEnded, MonoIsRefused, ProofHasOnePlace, ProofIsEnded, ProofIsRefused, RefusedFileIsNotDerived, RefusedFormulaIsNotDerived, RefusedMonoIsNotDerived, RefusedProofIsNotDerived, WholeFormulaIsRefused, WholeMonoIsRefused, WholeProofIsRefused};

/// The tokens before a refused one begin a tree, within the limits. A token that is refused as
/// unexpected goes on with no tree that begins so; one that is refused at a limit goes on with one
/// that is past the limit, and with none that is within all of them.
pub fn refusals_are_right()
    ensures monotypes { MonoIsRefused }
    ensures formulas { FormulaIsRefused }
    ensures proofs { ProofIsRefused }
    ensures files { FileIsRefused }
{}

/// Where a whole phrase was read and a token is left, no tree begins with the phrase and this token.
pub fn what_is_left_goes_on_with_nothing()
    ensures monotypes { MonoIsEnded }
    ensures formulas { FormulaIsEnded }
    ensures proofs { ProofIsEnded }
{}

/// So a phrase that is read to the end of the tokens is refused rightly, wherever reading stops.
pub fn refusals_to_the_end_are_right()
    ensures monotypes { WholeMonoIsRefused }
    ensures formulas { WholeFormulaIsRefused }
    ensures proofs { WholeProofIsRefused }
{}

/// What is refused rightly isn't derived within the limits.
pub fn what_is_refused_is_not_derived()
    ensures monotypes { RefusedMonoIsNotDerived }
    ensures formulas { RefusedFormulaIsNotDerived }
    ensures proofs { RefusedProofIsNotDerived }
    ensures files { RefusedFileIsNotDerived }
{}

/// No two places are right for the same tokens.
pub fn refusals_have_one_place()
    ensures monotypes { MonoHasOnePlace }
    ensures formulas { FormulaHasOnePlace }
    ensures proofs { ProofHasOnePlace }
    ensures files { FileHasOnePlace }
{}

/// Stops that were worked out by hand.
pub fn worked_refusals()
    ensures examples { WorkedRefusals }
{}
