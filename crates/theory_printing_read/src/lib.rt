//! What is printed is read back: at each place with the printed names, a printed phrase stands for the printed tree and
//! for no other, positions and the monotypes of runs aside; and it is within limits exactly where the printed levels and
//! operands are. A function without a body states a law by its contract.
#![tactic(auto)]

ghost use Rattle.theory_printing_read.specs.Laws.{FormulasAreRead, PlacesHavePrintedNames, ProofsAreRead, SequentsAreRead, TypesAreRead};

/// What is printed of a type that has a text stands for it, and for no other.
pub fn printed_types_are_read()
    ensures law { TypesAreRead }
{}

/// What is printed of a formula that has a text stands for it, and for no other.
pub fn printed_formulas_are_read()
    ensures law { FormulasAreRead }
{}

/// What is printed of a proof that has a text stands for it, and for no other.
pub fn printed_proofs_are_read()
    ensures law { ProofsAreRead }
{}

/// What is printed of the type of each entry of a sequent stands for it in the context before it, and what is printed of
/// each hypothesis and of the goal stands for it in the sequent, and for no other.
pub fn printed_sequents_are_read()
    ensures law { SequentsAreRead }
{}

/// A sequent's place has the printed names: with the items of a file that come before a place, and with given names of
/// which no two are the same.
pub fn places_have_printed_names()
    ensures law { PlacesHavePrintedNames }
{}
