//! Soundness of a file, declaration by declaration. A function without a body states a law by its
//! contract.
#![tactic(auto)]

ghost use Rattle.theory_file_steps.specs.Laws.{FilesAreSound};

/// A value or definition that is typed where the declarations before it hold, holds too.
pub fn files_are_sound()
    ensures law { FilesAreSound }
{}
