//! States are formed where their parts are. A function without a body states the law by its contract.
#![tactic(auto)]

ghost use Rattle.theory_formed_states.specs.Laws.{StatesKeepFormed};

/// The states of a computation, and what its steps owe, are formed where the steps are.
pub fn states_keep_formed()
    ensures law { StatesKeepFormed }
{}
