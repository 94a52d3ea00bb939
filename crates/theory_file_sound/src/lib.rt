//! A derived file is sound: where its items derive and its obligations are proved, each value of a Hoare
//! type meets its triple with frame when its written text is run. A function without a body states the
//! law by its contract.
#![tactic(auto)]

ghost use Rattle.theory_file_sound.specs.Laws.{DerivedFileIsSound};

/// In a derived file the run of each value of a Hoare type meets its triple, from every heap beside every
/// frame, for all fuel and all choices that are words.
pub fn derived_file_is_sound()
    ensures law { DerivedFileIsSound }
{}
