//! Hereditary substitution in canonical trees, and that it gives at most one result. A function
//! without a body states laws by its contract.
#![tactic(auto)]

ghost use Rattle.theory_substitution.specs.Examples.{Applications, Binders, Computations, Monotypes, Others, Terms};
ghost use Rattle.theory_substitution.specs.Laws.{FilledSkeleton, OneApplication, OneBinding, OneComputation, OneFormulaResult, OneTermResult, OneTypeResult, SubstitutedSkeleton};

/// A term that is put for a variable gives at most one tree.
pub fn substitution_gives_one()
    ensures terms { OneTermResult }
    ensures computations { OneComputation }
    ensures types { OneTypeResult }
    ensures formulas { OneFormulaResult }
{}

/// A function applied to an argument gives at most one term.
pub fn application_gives_one()
    ensures law { OneApplication }
{}

/// A computation run before another gives at most one computation.
pub fn binding_gives_one()
    ensures law { OneBinding }
{}

/// What is put for a variable of a type, a term or a monotype, leaves its skeleton as it was.
pub fn substitution_keeps_skeletons()
    ensures terms { SubstitutedSkeleton }
    ensures monotypes { FilledSkeleton }
{}

/// Worked examples of the definitions, whose results were found by hand.
pub fn examples_of_substitution()
    ensures applications { Applications }
    ensures terms { Terms }
    ensures monotypes { Monotypes }
    ensures computations { Computations }
    ensures others { Others }
    ensures binders { Binders }
{}
