//! Formed trees over one notion of shape, in which an argument is no part of the answer's shape; made
//! functions are among the heads. A function without a body states laws by its contract.
#![tactic(auto)]

ghost use Rattle.theory_formed_shapes.specs.Examples.{WorkedExamples};
ghost use Rattle.theory_formed_shapes.specs.Laws.{FillingKeepsFormed, RenamingKeepsFormed};

/// Renaming keeps trees formed.
pub fn renaming_keeps_formed()
    ensures law { RenamingKeepsFormed }
{}

/// Monotypes that are put for monotype variables keep trees formed.
pub fn filling_keeps_formed()
    ensures law { FillingKeepsFormed }
{}

/// Formed trees, and trees that aren't, worked out by hand.
pub fn worked_examples()
    ensures examples { WorkedExamples }
{}
