//! What flat bodies denote. A function without a body states laws by its contract.
#![tactic(auto)]

ghost use Rattle.theory_flat_denoted.specs.Laws.{FlatBodiesDenote, MainDenotes};

/// A flat body comes to what the instance's body denotes, with the same fuel.
pub fn flat_bodies_denote()
    ensures law { FlatBodiesDenote }
{}

/// Main's flat body comes to what main's canonical term denotes, with the same fuel.
pub fn main_denotes()
    ensures law { MainDenotes }
{}
