//! The values of monotypes and the heaps that hold them: what a value is, how wide it is and how a
//! block holds it, what the operations give, what a heap is and when it is the union of two others.
//! Values come first, since a block holds a value's words. A function without a body states a law by
//! its contract.
#![tactic(auto)]

ghost use Rattle.theory_values.specs.Examples.{WorkedExamples};
ghost use Rattle.theory_values.specs.HeapLaws.{HeapLaws};
ghost use Rattle.theory_values.specs.ValueLaws.{ValueLaws};

/// A value's encoding is as long as its monotype is wide, tells the value, and is read back exactly;
/// each of the nine operations on words gives a value of its monotype.
pub fn value_laws()
    ensures laws { ValueLaws }
{}

/// The union of two heaps is commutative and associative, is determined by its parts and determines
/// each part from the other, and two ways to split a heap have four common corners.
pub fn heap_laws()
    ensures laws { HeapLaws }
{}

/// The definitions compute these examples.
pub fn worked_examples()
    ensures examples { WorkedExamples }
{}
