//! Flat bodies that fit together by monotypes. A function without a body states laws by its contract.
#![tactic(auto)]

ghost use Rattle.theory_flat_typed.specs.Examples.{WorkedTyping};

/// Flat bodies that are typed, and some that aren't, found by hand.
pub fn worked_typing()
    ensures examples { WorkedTyping }
{}
