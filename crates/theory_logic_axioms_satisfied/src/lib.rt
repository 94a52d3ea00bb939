//! The axioms are true in every valuation: what the table gives at arguments that denote values of their
//! sorts is satisfied there, functions and computations among the entries or not. A function without a
//! body states the law by its contract.
#![tactic(auto)]

ghost use Rattle.theory_logic_axioms_satisfied.specs.Laws.{AxiomsAreSatisfied};

/// Each instance of an axiom whose side condition holds is true in each valuation in which its arguments
/// denote values of their sorts.
pub fn axioms_are_satisfied()
    ensures law { AxiomsAreSatisfied }
{}
