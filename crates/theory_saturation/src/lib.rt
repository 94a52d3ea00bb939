//! Numbers that stop at 2^64 - 1. A function without a body states laws by its contract.
#![tactic(auto)]

ghost use Rattle.theory_saturation.specs.Saturation.{SaturationKeeps};

/// A sum, a greater one and a next number are the same whether their parts stopped before or not.
pub fn saturation_keeps()
    ensures law { SaturationKeeps }
{}
