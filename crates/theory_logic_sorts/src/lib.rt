//! Trees in which each variable is used by its sort: as a monotype, as a value or as a heap. Truth in a
//! world is kept by substitution for such trees, and what is written otherwise means nothing. A function
//! without a body states a law by its contract.
#![tactic(auto)]

ghost use Rattle.theory_logic_sorts.specs.Laws.{ArgumentsKeepSorts, CanonicalTreesAreSorted, InstancesAreSorted, RenamingKeepsSorts, SubstitutionKeepsSorts};

/// A canonical term of a monotype and a canonical formula use each variable by its sort.
pub fn canonical_trees_are_sorted()
    ensures law { CanonicalTreesAreSorted }
{}

/// A renamed tree uses each variable by its sort where the map sends each variable to one of its sort.
pub fn renaming_keeps_sorts()
    ensures law { RenamingKeepsSorts }
{}

/// So does a tree in which a term is put for a value variable, or a heap for a heap variable.
pub fn substitution_keeps_sorts()
    ensures law { SubstitutionKeepsSorts }
{}

/// So does an instance of an axiom at arguments that do.
pub fn instances_are_sorted()
    ensures law { InstancesAreSorted }
{}

/// So does a formula in which arguments are put for its innermost variables.
pub fn arguments_keep_sorts()
    ensures law { ArgumentsKeepSorts }
{}
