//! What the typing rules give is canonical: types, terms, computations, and the goals that are owed, of
//! which the states come first. So substitution has a result wherever the rules ask for one. A function
//! without a body states laws by its contract.
#![tactic(auto)]

ghost use Rattle.theory_typing_canonical.specs.Laws.{StatesKeepCanonical, TypingGivesCanonical};

/// A start, what a step owes, the state after it, a branch and an end are canonical where their parts
/// are.
pub fn states_keep_canonical()
    ensures law { StatesKeepCanonical }
{}

/// In a canonical environment and context each phrase that is formed or typed has a canonical type and
/// a canonical form, and owes canonical goals.
pub fn typing_gives_canonical()
    ensures law { TypingGivesCanonical }
{}
