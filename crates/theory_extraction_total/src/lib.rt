//! A file whose values derive has code, or a reason why it has none. A function without a body states laws by its
//! contract.
#![tactic(auto)]

ghost use Rattle.theory_emission.specs.Codes.{code_of, first_code};
ghost use Rattle.theory_extraction_total.specs.Laws.{ExtractionIsDecided, ProgramsAreDecided};

/// A canonical program whose main is one of its values, if it has one, has a list of instances or a reason why it
/// has none; and the instances have flat bodies.
pub fn programs_are_decided()
    ensures law { ProgramsAreDecided }
{}

/// A file whose values derive, and whose main is one of them, if it has one, has code or a reason why it isn't
/// extractable; and so of version 1 code.
pub fn extraction_is_decided()
    ensures law { ExtractionIsDecided code_of }
    ensures first { ExtractionIsDecided first_code }
{}
