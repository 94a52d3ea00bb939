//! A file that is checked within the limits has values whose monotypes are within theirs. A function without a
//! body states laws by its contract.
#![tactic(auto)]

ghost use Rattle.theory_extraction_narrow.specs.Laws.{CheckedFilesAreNarrow};

/// Where the items of a file are checked within the limits, no monotype in the canonical term of a value is past
/// its limit.
pub fn checked_files_are_narrow()
    ensures law { CheckedFilesAreNarrow }
{}
