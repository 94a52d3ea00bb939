//! What a formed tree needs of its context. A function without a body states laws by its contract.
#![tactic(auto)]

ghost use Rattle.theory_formed_met.specs.Laws.{OnlyMetIsNeeded, WhatOccursHasAnEntry};

/// A formed term, renamed by a map, is formed in each context to which the map carries monotypes, heaps and the
/// entries of the variables that occur in the term.
pub fn only_met_is_needed()
    ensures law { OnlyMetIsNeeded }
{}

/// Each variable that occurs in a formed term is a term of its context.
pub fn what_occurs_has_an_entry()
    ensures law { WhatOccursHasAnEntry }
{}
