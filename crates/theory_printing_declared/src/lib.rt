//! Where the declared names of a text stand for what is printed by them. A function without a body states a law by its
//! contract.
#![tactic(auto)]

ghost use Rattle.theory_printing_declared.specs.Laws.{DeclaredNames};

/// In a table of names in order each value and each recursive predicate is found by its name, with its number. What the
/// items of a file declare is in order, and so is what those before a place declare. And given names, no two of which are
/// the same, are found in their own table.
pub fn declared_names_stand()
    ensures law { DeclaredNames }
{}
