//! What holds of every heap text.

ghost use Rattle.heap_model_text.specs.Examples.{WorkedExamples};
ghost use Rattle.heap_model_text.specs.Laws.{HeapTextLaws};

/// A heap has one text and a text one heap; what is written is read again where the locations are
/// below 2^63; a file has a bad line only where it is no heap file, and then one.
pub fn heap_text_laws()
    ensures laws { HeapTextLaws }
{}

/// The definitions compute these examples.
pub fn worked_examples()
    ensures examples { WorkedExamples }
{}
