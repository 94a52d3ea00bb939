//! Flat bodies: the bodies of instances, where each call names an instance, and what these come to. A
//! function without a body states laws by its contract.
#![tactic(auto)]

ghost use Rattle.theory_flat.specs.Examples.{WorkedFlatBodies, WorkedReadings};

/// Flat bodies, and what they come to, that were worked out by hand.
pub fn worked_flat_bodies()
    ensures bodies { WorkedFlatBodies }
    ensures readings { WorkedReadings }
{}
