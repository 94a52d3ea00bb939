//! Emitted code is valid, and its numbers fit their fields. A function without a body states laws by its
//! contract.
#![tactic(auto)]

ghost use Rattle.theory_emission_valid.specs.Laws.{EmittedIsValid, EmittedNumbersFit};

/// The code of a list of typed instances is valid, in both versions, where main comes first and all is within
/// the limits.
pub fn emitted_is_valid()
    ensures law { EmittedIsValid }
{}

/// There each number of this code fits its field.
pub fn emitted_numbers_fit()
    ensures law { EmittedNumbersFit }
{}
