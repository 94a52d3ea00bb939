//! A derived file with a recursive predicate and a value with a recursive function over it, worked out by
//! hand: the proofs use what the predicate says at 0 and at the next word, and what the function's own
//! triple says of its run. A function without a body states laws by its contract.
#![tactic(auto)]

ghost use Rattle.theory_file_recursion.specs.Doubling.{RecursiveFile};

/// The file is derived, and its value that runs the function meets its triple.
pub fn recursive_file()
    ensures law { RecursiveFile }
{}
