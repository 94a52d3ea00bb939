//! The proof rules: which formula a proof infers and which goals it proves, as two relations with one
//! rule for each form of proof and its premises in the written order. What the rules say of hypotheses
//! and arguments stands first, then the rules, then their laws. A function without a body states laws
//! by its contract.
#![tactic(auto)]

ghost use Rattle.theory_logic_rules.specs.Examples.{TheForms, TheGoals, TheInferences, TheStatements, TheUnfoldings, TheVariables};
ghost use Rattle.theory_logic_rules.specs.Laws.{OneFit, OneInferred, OnePut, PositionsInfer, PositionsProve, PositionsState};

/// A proof infers at most one formula.
pub fn proof_infers_one()
    ensures law { OneInferred }
{}

/// Arguments have at most one canonical form, and give at most one formula where they are put for
/// variables.
pub fn arguments_give_one()
    ensures fitted { OneFit }
    ensures put { OnePut }
{}

/// A position around a proof or a statement says nothing.
pub fn positions_say_nothing()
    ensures inferred { PositionsInfer }
    ensures proved { PositionsProve }
    ensures stated { PositionsState }
{}

/// Worked examples of the rules, whose derivations were found by hand.
pub fn examples_of_proofs()
    ensures statements { TheStatements }
    ensures forms { TheForms }
    ensures unfoldings { TheUnfoldings }
    ensures inferences { TheInferences }
    ensures goals { TheGoals }
    ensures variables { TheVariables }
{}
