//! What a text says of a tree, and when printed tokens are read as a tree of the grammar. A function without a body
//! states a law by its contract.
#![tactic(auto)]

ghost use Rattle.theory_printing_forms.specs.Laws.{BracketsFit};

/// What is printed at a place is read there: with the brackets of the table as what the grammar has at that place.
pub fn brackets_fit_the_grammar()
    ensures law { BracketsFit }
{}
