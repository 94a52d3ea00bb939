//! The code of a file that is checked within the limits is valid. A function without a body states laws by its
//! contract.
#![tactic(auto)]

ghost use Rattle.theory_extraction_valid.specs.Examples.{WorkedCodeFile};
ghost use Rattle.theory_extraction_valid.specs.Laws.{ExtractedCodeIsValid};

/// Where the items of a file are checked within the limits, the code of the file is valid and each of its numbers
/// fits its field, in both versions: so it has a code file.
pub fn extracted_code_is_valid()
    ensures law { ExtractedCodeIsValid }
{}

/// A small file with its code and the bytes of this, found by hand.
pub fn worked_code_file()
    ensures examples { WorkedCodeFile }
{}
