//! Each monotype of what a phrase or an item comes to when it is checked has at most 64 nodes. A function
//! without a body states laws by its contract.
#![tactic(auto)]

ghost use Rattle.theory_checking_narrow.specs.Laws.{CheckedItemsAreNarrow, WhatComesIsNarrow};

/// In an environment and a context whose monotypes are within their limit, so are those of the types, terms,
/// formulas and computations that a phrase comes to, and those of what it owes.
pub fn what_comes_is_narrow()
    ensures law { WhatComesIsNarrow }
{}

/// There the monotypes of what an item adds and owes are within their limit too, and those of the environment
/// after it.
pub fn checked_items_are_narrow()
    ensures law { CheckedItemsAreNarrow }
{}
