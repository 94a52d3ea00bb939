//! Flat bodies and fuel. A function without a body states laws by its contract.
#![tactic(auto)]

ghost use Rattle.theory_flat_fuel.specs.Laws.{MoreFuelKeepsFlat};

/// What a call or a body comes to, other than want of fuel, it comes to with more fuel too.
pub fn more_fuel_keeps()
    ensures law { MoreFuelKeepsFlat }
{}
