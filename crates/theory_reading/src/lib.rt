//! Reading from left to right: the readers of each production answer exactly what the grammar
//! derives within the limits. A function without a body states laws by its contract.
#![tactic(auto)]

ghost use Rattle.theory_reading.specs.Laws.{FileIsDerived, FileIsRead, FormulaIsDerived, FormulaIsRead, MonoIsDerived, MonoIsRead, ProofIsDerived, ProofIsRead};

/// What is read is derived, and within the limits.
pub fn what_is_read_is_derived()
    ensures monotypes { MonoIsDerived }
    ensures formulas { FormulaIsDerived }
    ensures proofs { ProofIsDerived }
    ensures files { FileIsDerived }
{}

/// What is derived within the limits is read.
pub fn what_is_derived_is_read()
    ensures monotypes { MonoIsRead }
    ensures formulas { FormulaIsRead }
    ensures proofs { ProofIsRead }
    ensures files { FileIsRead }
{}
