//! When a file is extractable, and its code. A function without a body states laws by its contract.
#![tactic(auto)]

ghost use Rattle.theory_extraction.specs.Examples.{WorkedExtraction};

/// The code of a file, and a refusal, that were worked out by hand.
pub fn worked_extraction()
    ensures examples { WorkedExtraction }
{}
