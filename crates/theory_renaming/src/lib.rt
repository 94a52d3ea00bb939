//! Renaming of trees by a map of indices, and its laws. A function without a body states a law by
//! its contract.
#![tactic(auto)]

ghost use Rattle.theory_renaming.specs.Laws.{IdentityKeeps, RenamingsCompose, RenamingKeepsScope, WhatAShiftIs};

/// Renaming by the identity gives the tree itself.
pub fn identity_keeps()
    ensures law { IdentityKeeps }
{}

/// Renaming twice is renaming by the one map after the other.
pub fn renamings_compose()
    ensures law { RenamingsCompose }
{}

/// Renaming keeps a tree in scope.
pub fn renaming_keeps_scope()
    ensures law { RenamingKeepsScope }
{}

/// A shift lets the variables below its place stay, and lets the others go past so many more; two shifts
/// at one place add up.
pub fn what_a_shift_is()
    ensures law { WhatAShiftIs }
{}
