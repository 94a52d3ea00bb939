//! A token that is refused at a limit has, in each tree that goes on with it, a mark past the limit. A
//! function without a body states laws by its contract.
#![tactic(auto)]

ghost use Rattle.theory_reading_limits.specs.Laws.{FileStopsPast, FormulaStopsPast, MonoStopsPast, ProofStopsPast};

/// Where a reader stops at a limit and one with greater limits gives a tree, the tree's mark of the
/// refused token is past the limit.
pub fn what_is_refused_at_a_limit_is_past_it()
    ensures monotypes { MonoStopsPast }
    ensures formulas { FormulaStopsPast }
    ensures proofs { ProofStopsPast }
    ensures files { FileStopsPast }
{}
