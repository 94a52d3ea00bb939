//! The tokens that are printed of types and formulas derive the printed trees. A function without a body states a law by
//! its contract.
#![tactic(auto)]

ghost use Rattle.theory_printing_phrases.specs.Laws.{PrintedPhrases};

/// The printed tokens of a type or a formula that has a text derive a tree, which comes to what was printed, with the
/// printed levels and operands.
pub fn printed_phrases_are_derived()
    ensures law { PrintedPhrases }
{}
