//! Recursive functions unfold. A function without a body states laws by its contract.
#![tactic(auto)]

ghost use Rattle.theory_denotation_unfolding.specs.Laws.{CanonicalIsSteady, RecursionsUnfold};

/// Canonical trees denote alike below a bound of fuel where heads and variables do.
pub fn canonical_is_steady()
    ensures law { CanonicalIsSteady }
{}

/// A recursive function comes to what its body does, entered, where the recursion variable is the function
/// itself; at each skeleton, with all fuel, for steady arguments.
pub fn recursions_unfold()
    ensures law { RecursionsUnfold }
{}
