//! What types mean: when a denotation is of a type, by what it does. A computation is of a triple
//! where it meets it beside every frame. A function without a body states a law by its contract.
#![tactic(auto)]

ghost use Rattle.theory_denotation_types.specs.Laws.{ContextsGive, MeaningHasShape, MeaningIsStable, RecursionMeans, TypesReindex};

/// Renaming and substitution in a type are reindexing of the valuation.
pub fn types_reindex()
    ensures law { TypesReindex }
{}

/// The meaning of a type is stable under double negation.
pub fn meaning_is_stable()
    ensures law { MeaningIsStable }
{}

/// A recursion of what keeps a type is of the type, for all fuel.
pub fn recursion_means()
    ensures law { RecursionMeans }
{}

/// A valuation of a context gives each entry a thing of its sort, and of its type.
pub fn contexts_give()
    ensures law { ContextsGive }
{}

/// What is of a type is in the type's shape, and so is a valuation of a context.
pub fn meaning_has_shape()
    ensures law { MeaningHasShape }
{}
