//! Truth of formulas in worlds: the thing of an index, the value of a canonical term, when a formula is
//! true, and what recursive predicates say. Truth is read classically and speaks of any reading of
//! the recursive atoms; the predicates then give one, by recursion on their number and the index. A
//! function without a body states a law by its contract.
#![tactic(auto)]

ghost use Rattle.theory_truth.specs.Examples.{WorkedExamples};
ghost use Rattle.theory_truth.specs.Laws.{HeapFormulas, PredicatesUnfold, RenamingKeepsTruth, StarIsSplit, TruthIsClassical};

/// Truth is stable under double negation, so the excluded middle holds in every world.
pub fn truth_is_classical()
    ensures law { TruthIsClassical }
{}

/// A renamed formula is true in one world exactly where the formula is in the other, where each
/// thing of the one stands where the map sends it.
pub fn renaming_keeps_truth()
    ensures law { RenamingKeepsTruth }
{}

/// `Emp` is true where no location is in use, a cell where the heap is the one block that holds the
/// value, a block where the heap is one block of the width.
pub fn heap_formulas()
    ensures law { HeapFormulas }
{}

/// A star is true exactly where it is absurd that no two disjoint parts of the heap make its two
/// formulas true.
pub fn star_is_split()
    ensures law { StarIsSplit }
{}

/// A recursive predicate says at 0 what its first body says, and at the next index what its second
/// body says.
pub fn predicates_unfold()
    ensures law { PredicatesUnfold }
{}

/// The definitions compute these examples.
pub fn worked_examples()
    ensures examples { WorkedExamples }
{}
