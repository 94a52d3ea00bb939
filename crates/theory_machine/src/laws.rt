//! What holds of the written machine for every valid code.

ghost use Rattle.theory_machine.specs.Laws.{AsksOnlyAtAlloc, FramesKeepFitting, ShippedChoicesSufficeForCode};

/// Valid code enters with frames that fit it, and each step keeps them so: every frame stands before
/// an instruction of its function, with all its locals, and each result has its place below.
pub fn frames_keep_fitting()
    ensures law { FramesKeepFitting }
{}

/// A step of valid code asks exactly where the next instruction is an `alloc` and its choice is
/// missing, 0 or in use.
pub fn asks_only_at_alloc()
    ensures law { AsksOnlyAtAlloc }
{}

/// A run of valid code never asks with the shipped choices of its heap, where these are at least as
/// many as its steps.
pub fn shipped_choices_suffice()
    ensures law { ShippedChoicesSufficeForCode }
{}
