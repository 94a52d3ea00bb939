//! Emission: the code of a list of instances, in both versions, and why a list has none. A function without
//! a body states laws by its contract.
#![tactic(auto)]

ghost use Rattle.theory_emission.specs.Examples.{WorkedBytes, WorkedCode};

/// Code and its bytes that were worked out by hand.
pub fn worked_emission()
    ensures code { WorkedCode }
    ensures bytes { WorkedBytes }
{}
