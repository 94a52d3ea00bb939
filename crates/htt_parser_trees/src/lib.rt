//! The trees of a text as they are read, before its names are looked up: a type for each production
//! of the grammar, a name as the place where it stands, and the first byte of each type, term,
//! formula, statement and end of a proof. Brackets and the optional parts of a phrase are kept, so
//! that a tree tells the tokens that it was read from.
#![tactic(auto)]

mod decl;
mod mono;
mod place;
mod proof;
mod tree;

pub use decl::{ProofBody, RawDecl, RawMonoParam};
pub use mono::{MonoName, RawBracket, RawMono, RawRight};
pub use place::{Binder, Span};
pub use proof::{RawArg, RawEnd, RawMotive, RawProof, RawStmt, UnaryRule};
pub use tree::{
    ProdOperand, RawAppl, RawAtom, RawComp, RawConj, RawDisj, RawFatom, RawFix, RawFormula,
    RawHeap, RawParam, RawPart, RawProd, RawRel, RawSort, RawStar, RawStep, RawSum, RawTerm,
    RawTriple, RawTy, SumOperand, UnaryWord,
};
