//! Two texts that differ in bound names alone stand for the same, but for bytes. A function without a body states laws
//! by its contract.
#![tactic(auto)]

ghost use Rattle.theory_text_alike.specs.Examples.{WorkedAlike};
ghost use Rattle.theory_text_alike.specs.Laws.{BoundNamesAreFree, FilesWithOtherNames, UsesWithoutBytes};

/// Phrases that differ in bound names alone come to the same trees, but for bytes, or are stopped for one reason.
pub fn bound_names_are_free()
    ensures law { BoundNamesAreFree }
{}

/// A use of a predicate, without bytes, is the use of the predicate without bytes.
pub fn uses_without_bytes()
    ensures law { UsesWithoutBytes }
{}

/// Files that declare the same names, and differ in bound names alone, have the same items, but for bytes, or are
/// stopped for one reason.
pub fn files_with_other_names()
    ensures law { FilesWithOtherNames }
{}

/// Phrases that differ in bound names alone, and phrases that differ in more.
pub fn worked_alike()
    ensures examples { WorkedAlike }
{}
