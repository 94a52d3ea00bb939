//! Derived files whose values run computations, worked out by hand: values that run the one before them, a
//! value that takes a computation and runs it twice, and a value that never ends, of which an earlier
//! value's proof speaks. A function without a body states laws by its contract.
#![tactic(auto)]

ghost use Rattle.theory_file_calls.specs.Calls.{ValuesThatCall};
ghost use Rattle.theory_file_calls.specs.Endless.{EndlessValue};
ghost use Rattle.theory_file_calls.specs.Takers.{ComputationTaken};

/// A file of three values of which the second runs the first and the third runs the second.
pub fn values_that_call()
    ensures law { ValuesThatCall }
{}

/// A file with a value that takes a computation as its argument and runs it twice.
pub fn computation_taken()
    ensures law { ComputationTaken }
{}

/// A file with a value that runs a recursive function without end. The proof of an earlier value speaks of
/// it, and it runs the earlier value: that is no circle.
pub fn endless_value()
    ensures law { EndlessValue }
{}
