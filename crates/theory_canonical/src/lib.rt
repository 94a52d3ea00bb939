//! Canonical trees: skeletons of types, folding of operations, eta-expansions, and which trees are
//! canonical, with their laws. A function without a body states laws by its contract.
#![tactic(auto)]

ghost use Rattle.theory_canonical.specs.Examples.{TheCanonical, TheComputations, TheExpansions, TheFoldings, TheFormulas, TheSkeletons, NoFoldings};
ghost use Rattle.theory_canonical.specs.Laws.{EtaIsCanonical, NeutralHasOneSkeleton, RenamedComputation, RenamedFormula, RenamedSkeleton, RenamedTerm, RenamedType};

/// The eta-expansion of a neutral term at a canonical type is canonical.
pub fn eta_is_canonical()
    ensures law { EtaIsCanonical }
{}

/// A neutral term has at most one skeleton.
pub fn neutral_has_one_skeleton()
    ensures law { NeutralHasOneSkeleton }
{}

/// Renaming keeps a tree canonical where each variable is given one that may be used alike.
pub fn renaming_keeps_canonical()
    ensures terms { RenamedTerm }
    ensures computations { RenamedComputation }
    ensures types { RenamedType }
    ensures formulas { RenamedFormula }
{}

/// Renaming keeps the skeleton of a type.
pub fn renaming_keeps_skeletons()
    ensures law { RenamedSkeleton }
{}

/// Worked examples of the definitions, whose values were found by hand.
pub fn examples_of_canonical_trees()
    ensures skeletons { TheSkeletons }
    ensures foldings { TheFoldings }
    ensures no_foldings { NoFoldings }
    ensures expansions { TheExpansions }
    ensures canonical { TheCanonical }
    ensures computations { TheComputations }
    ensures formulas { TheFormulas }
{}
