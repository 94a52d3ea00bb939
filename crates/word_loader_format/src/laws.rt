//! What holds of the format for every file and every code.

ghost use Rattle.word_loader_format.specs.Laws.{OneCode, CodedOrRefused, CodedIsntRefused, OneCodeRefusal, WorkedFiles};

/// A file has one code at most: two codes with the same bytes are the same.
pub fn one_code()
    ensures law { OneCode }
{}

/// A file has a code, or it is refused at a field by a row.
pub fn coded_or_refused()
    ensures law { CodedOrRefused }
{}

/// A file that has a code isn't refused.
pub fn coded_isnt_refused()
    ensures law { CodedIsntRefused }
{}

/// A file is refused at one field, by one row.
pub fn one_refusal()
    ensures law { OneCodeRefusal }
{}

/// Small files, worked out by hand.
pub fn worked_files()
    ensures examples { WorkedFiles }
{}
