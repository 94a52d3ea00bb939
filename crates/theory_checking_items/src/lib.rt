//! What a declaration comes to when it is checked: what it adds and owes, or the first premise or limit that
//! stops it. A function without a body states laws by its contract.
#![tactic(auto)]

ghost use Rattle.theory_checking_items.specs.Laws.{CheckedItemsDerive, ItemsComeToOne};

/// An item comes to one thing at most.
pub fn items_come_to_one()
    ensures law { ItemsComeToOne }
{}

/// What an item adds and owes is derived.
pub fn checked_items_derive()
    ensures law { CheckedItemsDerive }
{}
