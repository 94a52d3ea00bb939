//! What is proved is true in every context: with functions, families over monotypes and computations
//! among the entries, a proof infers and proves formulas that each valuation satisfies in which its
//! hypotheses are satisfied. No obligation has to be true for it, the environment's own neither, so that
//! a proof may speak of later items and of its own. A function without a body states a law by its
//! contract.
#![tactic(auto)]

ghost use Rattle.theory_logic_satisfied.specs.Laws.{InferredIsCanonical, InferredIsSatisfied, ProvedIsSatisfied};

/// What a proof infers from canonical hypotheses is canonical.
pub fn inferred_is_canonical()
    ensures law { InferredIsCanonical }
{}

/// What a proof infers is true where its hypotheses are.
pub fn inferred_is_satisfied()
    ensures law { InferredIsSatisfied }
{}

/// What a proof proves is true where its hypotheses are, and without hypotheses in each valuation.
pub fn proved_is_satisfied()
    ensures law { ProvedIsSatisfied }
{}
