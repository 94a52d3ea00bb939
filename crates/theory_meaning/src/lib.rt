//! The written meaning: what the resolved text evaluates to, by value, with environments, closures
//! and fuel, and the locations that the shipped machine chooses. Pure terms come first, since a
//! computation evaluates them and then does its step. A function without a body states a law by its
//! contract.
#![tactic(auto)]

ghost use Rattle.theory_meaning.specs.Examples.{WorkedExamples};
ghost use Rattle.theory_meaning.specs.Laws.{ChoicesAreHandedOn, MoreFuelKeeps};
ghost use Rattle.theory_meaning.specs.Shipped.{ShippedChoicesSuffice};

/// A result other than want of fuel stays the same with more fuel.
pub fn more_fuel_keeps()
    ensures law { MoreFuelKeeps }
{}

/// A run that doesn't ask for a location comes to the same with further choices, and hands them on.
pub fn choices_are_handed_on()
    ensures law { ChoicesAreHandedOn }
{}

/// A run with the shipped choices ends without asking, where there are enough of them.
pub fn shipped_choices_suffice()
    ensures law { ShippedChoicesSuffice }
{}

/// The definitions compute these examples.
pub fn worked_examples()
    ensures examples { WorkedExamples }
{}
