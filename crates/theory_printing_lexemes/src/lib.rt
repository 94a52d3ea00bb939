//! Each printed lexeme is one token before what may follow it. A function without a body states a law by its contract.
#![tactic(auto)]

ghost use Rattle.theory_printing_lexemes.specs.Laws.{LexemesAreTokens};

/// A keyword, a sign, a number and a name is one token where nothing follows that goes on with it.
pub fn lexemes_are_tokens()
    ensures law { LexemesAreTokens }
{}
