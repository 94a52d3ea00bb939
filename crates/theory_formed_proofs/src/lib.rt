//! What a proof infers is formed, and so is each goal that stands in it. A function without a body states
//! the law by its contract.
#![tactic(auto)]

ghost use Rattle.theory_formed_proofs.specs.Laws.{ProofInfersFormed};

/// In a formed environment and context, from formed hypotheses, what a proof infers is formed; so are
/// instances of axioms, formulas in which formed arguments are put, and each sequent of a derivation.
pub fn proof_infers_formed()
    ensures law { ProofInfersFormed }
{}
