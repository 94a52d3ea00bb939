//! The code of a file does what the run of the text of its main does. A function without a body states the law by
//! its contract.
#![tactic(auto)]

ghost use Rattle.theory_extraction_faithful.specs.Laws.{ExtractionIsFaithful};

/// From each heap and with each list of choices: where the text never faults, the code of a file never faults, and
/// halts and asks exactly where the text does.
pub fn extraction_is_faithful()
    ensures law { ExtractionIsFaithful }
{}
