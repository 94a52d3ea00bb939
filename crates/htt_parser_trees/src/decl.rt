//! Declarations.

use crate::mono::RawMono;
use crate::place::{Binder, Span};
use crate::proof::RawProof;
use crate::tree::{RawFormula, RawTerm, RawTy};
use htt_syntax_seq::Seq;

/// A declaration of a file.
#[derive(Drop)]
pub enum RawDecl {
    /// `type id = mono`
    Type {
        name: Span,
        mono: RawMono,
    },
    /// `pred id [ ids ] ( params ) = formula`; without monotypes the square brackets are missing.
    Pred {
        name: Span,
        monos: Seq<Span>,
        params: Seq<RawMonoParam>,
        body: RawFormula,
    },
    /// `pred id induct b ( params ) = { formula } { formula }`
    Induct {
        name: Span,
        index: Binder,
        params: Seq<RawMonoParam>,
        zero: RawFormula,
        next: RawFormula,
    },
    /// `def id : type = term`
    Def {
        name: Span,
        ty: RawTy,
        term: RawTerm,
    },
    /// `val id : type = term`
    Val {
        name: Span,
        ty: RawTy,
        term: RawTerm,
    },
    /// `proof id . num = body`
    Proof {
        at: u64,
        name: Span,
        number: u64,
        body: ProofBody,
    },
}

/// `id : mono`
#[derive(Drop)]
pub struct RawMonoParam {
    pub name: Span,
    pub mono: RawMono,
}

/// What proves an obligation: `auto`, which leaves it open, or a proof.
#[derive(Drop)]
pub enum ProofBody {
    Auto { at: u64 },
    Proof(RawProof),
}
