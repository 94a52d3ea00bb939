//! What is put for the innermost variables of a formula is what the valuation gives for them, and so
//! both forms of unfolding a recursive predicate are true in every valuation of a context. A function
//! without a body states laws by its contract.
#![tactic(auto)]

ghost use Rattle.theory_logic_unfoldings_satisfied.specs.Laws.{ArgumentsAreEntries, UnfoldingsAreSatisfied};

/// Where arguments are put in a canonical formula, the result is canonical, and it is satisfied where
/// the formula is with what the arguments denote as further entries.
pub fn arguments_are_entries()
    ensures law { ArgumentsAreEntries }
{}

/// What a recursive predicate says at 0 and at a next word is true in every valuation of a context.
pub fn unfoldings_are_satisfied()
    ensures law { UnfoldingsAreSatisfied }
{}
