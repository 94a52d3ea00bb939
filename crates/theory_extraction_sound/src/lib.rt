//! The headline over the definitions: the code of a derived file is sound. A function without a body states laws
//! by its contract.
#![tactic(auto)]

ghost use Rattle.theory_extraction_sound.specs.Examples.{WorkedHeadline};
ghost use Rattle.theory_extraction_sound.specs.Laws.{ExtractedCodeIsSound};

/// From each heap with a part that meets main's precondition, for all choices that are words and all numbers of
/// steps, the code of a derived file never faults, and halts and asks exactly where main's run ends and asks;
/// where it halts, the other part is unchanged and the rest makes the postcondition true with the result.
pub fn extracted_code_is_sound()
    ensures law { ExtractedCodeIsSound }
{}

/// A small file, with its proof and its code, to which this applies.
pub fn worked_headline()
    ensures examples { WorkedHeadline }
{}
