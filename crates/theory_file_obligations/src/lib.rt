//! Obligations that are proved are true: what an item owes stands in canonical contexts, and is true
//! where it has a proof in the environment of all items. A function without a body states laws by its
//! contract.
#![tactic(auto)]

ghost use Rattle.theory_file_obligations.specs.Laws.{OwedStandsCanonical, ProvedIsTrueGoal};

/// What the typing rules owe stands in canonical contexts, and so does what an item owes.
pub fn owed_stands_canonical()
    ensures law { OwedStandsCanonical }
{}

/// An obligation of an item that has a proof in the environment of all items is true, whatever denotation
/// of their skeletons the values have.
pub fn proved_is_true_goal()
    ensures law { ProvedIsTrueGoal }
{}
