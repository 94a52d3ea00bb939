//! What a phrase gives when it is checked is what the typing rules derive. A function without a body states
//! laws by its contract.
#![tactic(auto)]

ghost use Rattle.theory_checking_derived.specs.Laws.{WhatComesIsDerived};

/// What a phrase gives is derived, with the same type, canonical form and obligations in order.
pub fn what_comes_is_derived()
    ensures law { WhatComesIsDerived }
{}
