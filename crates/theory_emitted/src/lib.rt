//! Emitted code does what main's flat body does, in both versions. A function without a body states laws by its
//! contract.
#![tactic(auto)]

ghost use Rattle.theory_emitted.specs.Laws.{MainIsEmitted, ProgramsAreEmitted};

/// Where main's flat body goes wrong with no fuel, the code halts with given words and heap, or asks, for some
/// number of steps exactly where the flat body ends with a value of these words and that heap, or asks, with
/// some fuel. Where the code faults, the flat body goes wrong.
pub fn main_is_emitted()
    ensures law { MainIsEmitted }
{}

/// The same of the instances of a program, where these are typed: of their code in version 2 and in version 1.
pub fn programs_are_emitted()
    ensures law { ProgramsAreEmitted }
{}
