//! What contexts, sequents and environments of the code are as definitions speak of them. A function without a body
//! states a law by its contract.
#![tactic(auto)]

ghost use Rattle.theory_views.specs.Laws.{ContextsAreTurned};

/// A context of the code has its outermost entry first, one of the definitions its innermost.
pub fn contexts_are_turned()
    ensures law { ContextsAreTurned }
{}
