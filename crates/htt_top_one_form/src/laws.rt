//! What holds of all declarations, whatever the code does.

ghost use Rattle.htt_top_one_form.specs.Examples.{ExampleForm};
ghost use Rattle.htt_top_one_form.specs.Form.{OneFormOfDeclarations};

/// Declarations say one thing at most.
pub fn one_meaning()
    ensures law { OneFormOfDeclarations }
{}

/// The declarations of a short text, told by the definitions alone.
pub fn example_form()
    ensures examples { ExampleForm }
{}
