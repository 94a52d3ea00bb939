//! Substitution for a variable that a tree doesn't hold. A function without a body states laws by
//! its contract.
#![tactic(auto)]

ghost use Rattle.theory_substitution_unused.specs.Laws.{UnusedInComputation, UnusedInFormula, UnusedInTerm, UnusedInType, UnusedMonotypeInComputation, UnusedMonotypeInFormula, UnusedMonotypeInTerm, UnusedMonotypeInType};

/// What is put for a variable that a canonical tree doesn't hold leaves the tree as it was.
pub fn unused_variable_leaves_the_tree()
    ensures terms { UnusedInTerm }
    ensures computations { UnusedInComputation }
    ensures types { UnusedInType }
    ensures formulas { UnusedInFormula }
{}

/// A monotype that is put for a variable that a canonical tree doesn't hold leaves the tree as it was.
pub fn unused_monotype_leaves_the_tree()
    ensures terms { UnusedMonotypeInTerm }
    ensures computations { UnusedMonotypeInComputation }
    ensures types { UnusedMonotypeInType }
    ensures formulas { UnusedMonotypeInFormula }
{}
