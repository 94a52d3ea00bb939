//! What holds of every text, whatever the code does. A function without a body states a law by its
//! contract.

ghost use Rattle.htt_lexer.specs.Examples.{WorkedExamples};
ghost use Rattle.htt_lexer.specs.Laws.{TokenLaws};

/// A text has exactly one list of tokens or exactly one cause for which it is refused, and not both;
/// tokens stand in order, and each is what its slice of the text says.
pub fn token_laws()
    ensures laws { TokenLaws }
{}

/// The definitions give these texts their tokens, and refuse these.
pub fn worked_examples()
    ensures examples { WorkedExamples }
{}
