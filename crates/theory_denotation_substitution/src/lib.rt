//! Hereditary substitution is an equality of denotations: no order of substitutions is ever needed
//! above. Which result a reduced head has comes first, then terms and computations, and formulas last.
//! A function without a body states a law by its contract.
#![tactic(auto)]

ghost use Rattle.theory_denotation_substitution.specs.Laws.{ApplicationIsApplication, HeadsAreKept, SplicingIsSequence, SubstitutionIsValuation};

/// What substitution gives denotes what the tree denotes in the valuation that gives for the variable
/// what the new term denotes.
pub fn substitution_is_valuation()
    ensures law { SubstitutionIsValuation }
{}

/// A head that stays denotes the same entry, and a head that is reduced denotes what its result does.
pub fn heads_are_kept()
    ensures law { HeadsAreKept }
{}

/// A function applied to an argument, or a family to a monotype, denotes its denotation at that of
/// the argument.
pub fn application_is_application()
    ensures law { ApplicationIsApplication }
{}

/// A computation spliced before another is run before it.
pub fn splicing_is_sequence()
    ensures law { SplicingIsSequence }
{}
