//! Hereditary substitution gives a tree wherever the trees that it is given are canonical at the
//! skeletons in question, and that tree is canonical. With at most one result this is exactly one.
//! A function without a body states laws by its contract.
#![tactic(auto)]

ghost use Rattle.theory_substitution_total.specs.Laws.{ApplicationGivesCanonical, ApplicationResult, BindingGivesCanonical, BindingResult, ComputationResult, FormulaResult, MonotypeInComputation, MonotypeInFormula, MonotypeInTerm, MonotypeInType, TermInComputation, TermInFormula, TermInTerm, TermInType, TermResult, TypeResult};

/// A canonical term that is put for a variable of its skeleton gives a canonical tree.
pub fn terms_give_canonical()
    ensures terms { TermInTerm }
    ensures computations { TermInComputation }
    ensures types { TermInType }
    ensures formulas { TermInFormula }
{}

/// A canonical function applied to a canonical argument gives a canonical term.
pub fn application_gives_canonical()
    ensures law { ApplicationGivesCanonical }
{}

/// A canonical computation run before another gives a canonical computation.
pub fn binding_gives_canonical()
    ensures law { BindingGivesCanonical }
{}

/// A canonical monotype that is put for a monotype variable leaves a tree canonical.
pub fn monotypes_give_canonical()
    ensures terms { MonotypeInTerm }
    ensures computations { MonotypeInComputation }
    ensures types { MonotypeInType }
    ensures formulas { MonotypeInFormula }
{}

/// Whatever a substitution in canonical trees gives is canonical.
pub fn results_are_canonical()
    ensures terms { TermResult }
    ensures computations { ComputationResult }
    ensures types { TypeResult }
    ensures formulas { FormulaResult }
    ensures applications { ApplicationResult }
    ensures bindings { BindingResult }
{}
