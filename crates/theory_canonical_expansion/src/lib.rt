//! Eta-expansions by the form of the type. A function without a body states laws by its contract.
#![tactic(auto)]

ghost use Rattle.theory_canonical_expansion.specs.Laws.{EtaByForms, RungsStay};

/// The expansion at each form of type, with the argument's type renamed in the place of a map that is kept; and what
/// an expansion goes down on.
pub fn eta_goes_by_forms()
    ensures forms { EtaByForms }
    ensures rungs { RungsStay }
{}
