//! What holds of the written machine for every code.

ghost use Rattle.word_loader_code.specs.Laws.{MachineHandsOnChoices, OverIsFinal, WorkedCode, WorkedRuns};

/// A machine that has halted, has faulted or asks stays so with more steps.
pub fn over_is_final()
    ensures law { OverIsFinal }
{}

/// Choices that aren't used are handed on: a machine that doesn't ask does the same with more
/// choices behind its own, and keeps them.
pub fn choices_are_handed_on()
    ensures law { MachineHandsOnChoices }
{}

/// Small runs, worked out by hand.
pub fn worked_runs()
    ensures examples { WorkedRuns }
{}

/// Valid code and code that isn't, worked out by hand.
pub fn worked_code()
    ensures examples { WorkedCode }
{}
