//! Derived files: each item derives in the environment of those before it, and each obligation has
//! exactly one proof, which isn't `auto` and proves it in the environment of all items. A function
//! without a body states laws by its contract.
#![tactic(auto)]

ghost use Rattle.theory_file_derived.specs.Examples.{WorkedExamples};
ghost use Rattle.theory_file_derived.specs.Laws.{DerivedFiles};

/// A file's items give one environment and one list of obligations, and a derived file has no open one.
pub fn derived_files()
    ensures law { DerivedFiles }
{}

/// Derived files, and files that aren't, worked out by hand.
pub fn worked_examples()
    ensures law { WorkedExamples }
{}
