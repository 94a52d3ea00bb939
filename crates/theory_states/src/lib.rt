//! The states of a computation on the logic side: the postcondition of each step, written to be the
//! strongest, and what each step owes. A function without a body states a law by its contract.
#![tactic(auto)]

ghost use Rattle.theory_states.specs.Laws.{StatesKeepScope, EndsKeepScope, PastIsAShift, WorkedStates};

/// In a context with so many variables, a step's obligation is in the scope of its state, and the
/// next state in the scope of one variable more.
pub fn states_keep_scope()
    ensures law { StatesKeepScope }
{}

/// The formula in which a body or a branch ends is in the scope of its context with the result.
pub fn ends_keep_scope()
    ensures law { EndsKeepScope }
{}

/// Going past so many variables is the shift by their count, from 0 on.
pub fn past_is_a_shift()
    ensures law { PastIsAShift }
{}

/// The states and obligations of small programs, worked out by hand.
pub fn worked_states()
    ensures examples { WorkedStates }
{}
