//! Which places of a text have the printed names, and what these stand for there. A function without a body states a law
//! by its contract.
#![tactic(auto)]

ghost use Rattle.theory_printing_names.specs.Laws.{PrintedNames};

/// A name that is printed for an entry, a heap, a hypothesis or a declared name stands for it.
pub fn printed_names_stand()
    ensures law { PrintedNames }
{}
