//! What a phrase comes to when it is checked: what it gives, or the first premise or limit that stops it,
//! with the word and the byte of the refusal. A function without a body states laws by its contract.
#![tactic(auto)]

ghost use Rattle.theory_checking.specs.Laws.{CheckingComesToOne};

/// A phrase comes to one thing at most: what it gives, or one stop.
pub fn checking_comes_to_one()
    ensures law { CheckingComesToOne }
{}
