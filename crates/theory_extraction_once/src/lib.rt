//! A file has at most one code, or one reason why it has none. A function without a body states laws by its
//! contract.
#![tactic(auto)]

ghost use Rattle.theory_emission.specs.Codes.{code_of, first_code};
ghost use Rattle.theory_extraction_once.specs.Laws.{CodeIsOne, InstancesAreOne};

/// A program has at most one list of instances and one of flat bodies, or one reason why it has none.
pub fn instances_are_one()
    ensures law { InstancesAreOne }
{}

/// A file has at most one code, or one reason why it isn't extractable; and so of version 1 code.
pub fn code_is_one()
    ensures law { CodeIsOne code_of }
    ensures first { CodeIsOne first_code }
{}
