//! A file whose items derive: the texts of its values realise what their canonical terms denote, and
//! those that run have the same outcomes. A function without a body states the law by its contract.
#![tactic(auto)]

ghost use Rattle.theory_adequacy_files.specs.Laws.{FilesAreAdequate};

/// The texts of a file's values and their canonical terms come to the same.
pub fn files_are_adequate()
    ensures law { FilesAreAdequate }
{}
