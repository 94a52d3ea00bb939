//! What a text stands for, from its bytes on. A function without a body states a law by its contract.
#![tactic(auto)]

ghost use Rattle.theory_text_bytes.specs.Laws.{StopsAreOne, TextsAreOne};

/// A text has at most one list of items, and at most one tree of each production.
pub fn texts_are_one()
    ensures law { TextsAreOne }
{}

/// A text that is stopped has one first event, and no items within the limits.
pub fn stops_are_one()
    ensures law { StopsAreOne }
{}
