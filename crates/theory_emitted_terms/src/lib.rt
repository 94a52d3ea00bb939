//! The emitted code of a term brings its value to a place. A function without a body states laws by its
//! contract.
#![tactic(auto)]

ghost use Rattle.theory_emitted_terms.specs.Laws.{TermsAreEmitted};

/// From a frame whose locals hold the variables, the emitted code of a term goes on behind itself, with the
/// words of the term's value at its place and all locals below as they were; and likewise terms in order.
pub fn terms_are_emitted()
    ensures law { TermsAreEmitted }
{}
