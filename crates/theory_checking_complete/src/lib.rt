//! What the typing rules derive, checking gives, or a limit is passed: no rule refuses it. A function without
//! a body states laws by its contract.
#![tactic(auto)]

ghost use Rattle.theory_checking_complete.specs.Laws.{DerivedIsNotRefused, DerivedReaches, RefusedIsNotDerived};

/// A phrase or an item that is derived comes to that, at whatever byte it stands, or to a limit.
pub fn derived_reaches()
    ensures law { DerivedReaches }
{}

/// A phrase or an item that is derived comes to nothing else.
pub fn derived_is_not_refused()
    ensures law { DerivedIsNotRefused }
{}

/// What a rule refuses isn't derived: so checking decides the rules, up to the limits.
pub fn refused_is_not_derived()
    ensures law { RefusedIsNotDerived }
{}
