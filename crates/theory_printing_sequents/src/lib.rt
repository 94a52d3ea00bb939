//! What is printed of sequents, and that it is read. A function without a body states a law by its contract.
#![tactic(auto)]

ghost use Rattle.theory_printing_sequents.specs.Examples.{SequentExamples};
ghost use Rattle.theory_printing_sequents.specs.Laws.{PrintedSequents};

/// What is printed of two sequents, written by hand.
pub fn sequents_by_hand()
    ensures law { SequentExamples }
{}

/// A place in a sequent has the printed names. The printed tokens of the type of each entry, in the context before it, and
/// of each hypothesis and the goal derive a tree, which comes to what was printed.
pub fn printed_sequents_are_derived()
    ensures law { PrintedSequents }
{}
