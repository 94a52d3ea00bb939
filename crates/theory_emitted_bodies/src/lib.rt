//! The emitted code of an instance does what its flat body does. A function without a body states laws by its
//! contract.
#![tactic(auto)]

ghost use Rattle.theory_emitted_bodies.specs.Laws.{BodiesAreEmitted};

/// From a frame that is entered for an instance, on any stack, the code returns the words of what the flat body
/// ends with, asks where it asks, and goes on for more steps than the fuel that the body runs out of.
pub fn bodies_are_emitted()
    ensures law { BodiesAreEmitted }
{}
