//! Programs at the limits of extraction and past them, and which refusal comes first. A function without a
//! body states laws by its contract.
#![tactic(auto)]

ghost use Rattle.theory_extraction_refusals.specs.Sizes.{WorkedSizes};
ghost use Rattle.theory_extraction_refusals.specs.Crowds.{WorkedCrowds};
ghost use Rattle.theory_extraction_refusals.specs.Precedence.{WorkedPrecedence};

/// Programs whose trees or monotypes are as large as may be, or larger.
pub fn worked_sizes()
    ensures examples { WorkedSizes }
{}

/// Programs with as many instances as may be, or with one more.
pub fn worked_crowds()
    ensures examples { WorkedCrowds }
{}

/// A program whose second instance may be refused for its nodes, its parameter's monotype and its calls.
pub fn worked_precedence()
    ensures examples { WorkedPrecedence }
{}
