//! What a phrase and a declaration come to when they are checked is formed. A function without a body states
//! laws by its contract.
#![tactic(auto)]

ghost use Rattle.theory_checking_formed.specs.Laws.{CheckedItemsKeepFormed, WhatComesIsFormed};

/// In an environment and a context that are formed, a phrase comes to formed types, terms, formulas and goals.
pub fn what_comes_is_formed()
    ensures law { WhatComesIsFormed }
{}

/// An item that is checked without entries keeps the environment formed.
pub fn checked_items_keep_formed()
    ensures law { CheckedItemsKeepFormed }
{}
