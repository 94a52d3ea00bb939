//! Derived files, worked out by hand: a proof that uses a definition behind it, and a proof that uses a
//! later value as the argument of a function variable. A function without a body states laws by its
//! contract.
#![tactic(auto)]

ghost use Rattle.theory_file_examples.specs.Examples.{WorkedFiles};

/// Files that are derived, with the triples that their values meet.
pub fn worked_files()
    ensures law { WorkedFiles }
{}
