//! Which trees have a text, and that the tokens of this text are those that were printed. A function without a body
//! states laws by its contract.
#![tactic(auto)]

ghost use Rattle.theory_printing_tokens.specs.Laws.{PrintedTokens};

/// The bytes that are printed of a tree that has a text are read as the tokens that were printed.
pub fn printed_tokens_are_read()
    ensures law { PrintedTokens }
{}
