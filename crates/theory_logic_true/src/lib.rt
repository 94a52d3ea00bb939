//! What is proved is true: in a first-order context a proof infers and proves formulas that are true in
//! each world in which its hypotheses are. A function without a body states a law by its contract.
#![tactic(auto)]

ghost use Rattle.theory_logic_true.specs.Examples.{SortsAreNeeded, WorkedExamples};
ghost use Rattle.theory_logic_true.specs.Laws.{InferredIsTrue, ProofsAreConsistent, ProvedIsTrue, UnfoldingsAreTrue};
ghost use Rattle.theory_logic_true.specs.WrongCase.{BranchesNeedTheirOwn};

/// What a recursive predicate says at 0 and at a next word is true in each world of the context.
pub fn unfoldings_are_true()
    ensures law { UnfoldingsAreTrue }
{}

/// What a proof infers is true where its hypotheses are.
pub fn inferred_is_true()
    ensures law { InferredIsTrue }
{}

/// What a proof proves is true where its hypotheses are, and without hypotheses in each world.
pub fn proved_is_true()
    ensures law { ProvedIsTrue }
{}

/// In no first-order context has `ff` a proof without hypotheses.
pub fn proofs_are_consistent()
    ensures law { ProofsAreConsistent }
{}

/// With the hypothesis of the first branch in the second, a case distinction would prove what is false.
pub fn branches_need_their_own()
    ensures law { BranchesNeedTheirOwn }
{}

/// A hypothesis that uses a variable against its sort may be true, and what is inferred from it false.
pub fn sorts_are_needed()
    ensures law { SortsAreNeeded }
{}

/// Formed environments, a first-order context, and truths by proofs, worked out by hand.
pub fn examples_of_truths()
    ensures examples { WorkedExamples }
{}
