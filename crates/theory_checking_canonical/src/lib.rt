//! What a phrase or an item comes to when it is checked is canonical, and what it owes is within the limits. A
//! function without a body states laws by its contract.
#![tactic(auto)]

ghost use Rattle.theory_checking_canonical.specs.Laws.{CheckedItemsKeepCanonical, OwedIsWithinLimits, WhatComesIsCanonical};

/// Each goal that a phrase or an item owes has at most 1,000,000 nodes, and at most 1,000 on a path down; its context has
/// at most 4,096 entries.
pub fn owed_is_within_limits()
    ensures law { OwedIsWithinLimits }
{}

/// In a canonical environment and context a phrase comes to canonical types, terms, computations and goals.
pub fn what_comes_is_canonical()
    ensures law { WhatComesIsCanonical }
{}

/// An item that is checked without entries keeps the environment canonical, and owes canonical goals.
pub fn checked_items_keep_canonical()
    ensures law { CheckedItemsKeepCanonical }
{}
