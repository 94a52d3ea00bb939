//! What the bodies of instances denote. A function without a body states laws by its contract.
#![tactic(auto)]

ghost use Rattle.theory_instances_denoted.specs.Laws.{FixBodiesDenote, ValBodiesDenote};

/// The body of an instance denotes what its head does, given the arguments: the term of a value, or the
/// computation of a recursive function whose recursion variable is this function.
pub fn bodies_denote()
    ensures of_values { ValBodiesDenote }
    ensures of_recursive_functions { FixBodiesDenote }
{}
