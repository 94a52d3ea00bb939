//! The flat bodies of a formed program's instances are typed. A function without a body states laws by its
//! contract.
#![tactic(auto)]

ghost use Rattle.theory_flat_formed.specs.Laws.{FlatBodiesAreTyped};

/// The flat bodies of the instances of a formed program fit together by monotypes.
pub fn flat_bodies_are_typed()
    ensures law { FlatBodiesAreTyped }
{}
