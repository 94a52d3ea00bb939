//! What a proof comes to when it is checked: the formula that it infers, or the goal, or the first premise or
//! limit that stops it. A function without a body states laws by its contract.
#![tactic(auto)]

ghost use Rattle.theory_checking_proofs.specs.Examples.{CheckedProofs, RefusedProofs};
ghost use Rattle.theory_checking_proofs.specs.Laws.{CheckedProofsProve, ProofsComeToOne, ProvedIsNotRefused, ProvedReaches};

/// A proof comes to one thing at most.
pub fn proofs_come_to_one()
    ensures law { ProofsComeToOne }
{}

/// What a proof gives, the rules infer or prove.
pub fn checked_proofs_prove()
    ensures law { CheckedProofsProve }
{}

/// A proof that infers or proves comes to that, at whatever byte it stands, or to a limit.
pub fn proved_reaches()
    ensures law { ProvedReaches }
{}

/// Such a proof comes to nothing else.
pub fn proved_is_not_refused()
    ensures law { ProvedIsNotRefused }
{}

/// What small proofs come to, with the word and the byte of each refusal.
pub fn worked_proofs()
    ensures refused { RefusedProofs }
    ensures checked { CheckedProofs }
{}
