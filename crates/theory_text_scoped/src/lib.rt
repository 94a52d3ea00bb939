//! What a text stands for is in scope: each free variable of its trees is an entry of the context around it, of the
//! sort that its place needs. A function without a body states laws by its contract.
#![tactic(auto)]

ghost use Rattle.theory_text_scoped.specs.Laws.{FilesAreSorted, PhrasesAreSorted, SortedIsScoped};

/// A phrase of a text stands for a tree whose free variables are those of its scope, each used by its sort.
pub fn phrases_are_sorted()
    ensures law { PhrasesAreSorted }
{}

/// A tree whose variables are used by their sorts has no free variable beyond its context.
pub fn sorted_is_scoped()
    ensures law { SortedIsScoped }
{}

/// The items of a file, and what its names stand for, are closed.
pub fn files_are_sorted()
    ensures law { FilesAreSorted }
{}
