//! That the theorem on derived files needs its premises, by files that lack one of them. A function
//! without a body states laws by its contract.
#![tactic(auto)]

ghost use Rattle.theory_file_variants.specs.Variants.{AutoIsNoProof, ChoicesAreWords};

/// `auto` is no proof, and a choice that is no word can make a run miss its triple.
pub fn variants_of_files()
    ensures auto_is_no_proof { AutoIsNoProof }
    ensures choices_are_words { ChoicesAreWords }
{}
