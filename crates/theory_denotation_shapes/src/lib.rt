//! Denotations in the shape of a type. A type's shape forgets its formulas: a value is of its monotype,
//! a function takes denotations in the shape of the argument to such of the answer, and of a
//! computation nothing is said. A function without a body states the law by its contract.
#![tactic(auto)]

ghost use Rattle.theory_denotation_shapes.specs.Laws.{ShapesReindex};

/// Renaming and substitution in a type are reindexing of the valuation, positions say nothing, and what
/// ends in a computation is in the shape of its type.
pub fn shapes_reindex()
    ensures law { ShapesReindex }
{}
