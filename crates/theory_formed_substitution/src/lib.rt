//! Hereditary substitution keeps trees formed. A function without a body states the law by its contract.
#![tactic(auto)]

ghost use Rattle.theory_formed_substitution.specs.Laws.{SubstitutionKeepsFormed};

/// Where a formed term is put for a variable of its shape, the result is formed; so is an application of
/// a formed function, and a formed computation that is spliced before another.
pub fn substitution_keeps_formed()
    ensures law { SubstitutionKeepsFormed }
{}
