//! Wrong extractions and wrong rows of emission, which come to something else in small cases. A function
//! without a body states laws by its contract.
#![tactic(auto)]

ghost use Rattle.theory_emission_variants.specs.Variants.{VariantsOfEmission};

/// What wrong variants come to, beside what is right: a jump to itself, one instance for two keys, a place
/// that is used twice, a tail call that keeps the frame, a `sel` with changed sides.
pub fn variants_of_emission()
    ensures variants { VariantsOfEmission }
{}
