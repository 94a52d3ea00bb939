//! What holds of value text.

ghost use Rattle.heap_model.specs.Examples.{WorkedExamples};

/// The definition of value text computes these examples.
pub fn worked_examples()
    ensures examples { WorkedExamples }
{}
