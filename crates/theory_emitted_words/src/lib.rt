//! What is read of the locals of a frame after words were written there. Its lemmas also say what each instruction
//! does in a frame, whatever stack that stands on. A function without a body states laws by its contract.
#![tactic(auto)]

ghost use Rattle.theory_emitted_words.specs.Laws.{WordsAreRead};

/// What was written is read back, and what stands before it is as it was; the words of two places side by
/// side are those of the one and then those of the other.
pub fn words_are_read()
    ensures law { WordsAreRead }
{}
