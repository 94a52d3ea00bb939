//! The phrases that are read one level deeper.

use htt_parser_trees::{RawComp, RawConj, RawDisj, RawFormula, RawStar, RawTerm, RawTy};

/// A phrase that may be wanted one level deeper.
#[derive(Clone, Copy, Debug, PartialEq, Eq)]
pub enum Wanted {
    Type,
    Term,
    Computation,
    Formula,
    Disjunction,
    Conjunction,
    Star,
}

/// What was read for it.
#[derive(Drop)]
pub enum Found {
    Type(RawTy),
    Term(RawTerm),
    Computation(RawComp),
    Formula(RawFormula),
    Disjunction(RawDisj),
    Conjunction(RawConj),
    Star(RawStar),
}
