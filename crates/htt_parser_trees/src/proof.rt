//! Proofs: statements, and the end that proves what they leave.

use crate::mono::RawMono;
use crate::place::{Binder, Span};
use crate::tree::{RawFormula, RawHeap, RawTerm};
use htt_syntax_seq::Seq;
use sqlite_items::Boxed;

/// `{ stmt } end`
#[cycle(raw_proof)]
#[derive(Drop)]
pub struct RawProof {
    pub statements: Seq<RawStmt>,
    pub end: RawEnd,
}

/// A statement.
#[cycle(raw_proof)]
#[derive(Drop)]
pub enum RawStmt {
    /// `intro id ;`
    Intro {
        at: u64,
        name: Span,
    },
    /// `gen b ;`
    Gen {
        at: u64,
        name: Binder,
    },
    /// `open b id = proof ;`
    Open {
        at: u64,
        name: Binder,
        hypothesis: Span,
        proof: RawProof,
    },
    /// `have id : [ formula ] = proof ;`
    Have {
        at: u64,
        hypothesis: Span,
        formula: RawFormula,
        proof: RawProof,
    },
}

/// The end of a proof.
#[cycle(raw_proof)]
#[derive(Drop)]
pub enum RawEnd {
    Name(Span),
    Trivial {
        at: u64,
    },
    Refl {
        at: u64,
    },
    /// A word and a proof in brackets.
    Unary {
        at: u64,
        rule: UnaryRule,
        proof: Boxed<RawProof>,
    },
    /// `both ( proof , proof )`
    Both {
        at: u64,
        left: Boxed<RawProof>,
        right: Boxed<RawProof>,
    },
    /// `give ( arg , proof )`
    Give {
        at: u64,
        argument: RawArg,
        proof: Boxed<RawProof>,
    },
    /// `app ( proof , proof { , proof } )`
    App {
        at: u64,
        head: Boxed<RawProof>,
        first: Boxed<RawProof>,
        rest: Seq<RawProof>,
    },
    /// `inst ( proof , arg { , arg } )`
    Inst {
        at: u64,
        head: Boxed<RawProof>,
        first: RawArg,
        rest: Seq<RawArg>,
    },
    /// `case ( proof , id . proof , id . proof )`
    Case {
        at: u64,
        proof: Boxed<RawProof>,
        left_name: Span,
        left: Boxed<RawProof>,
        right_name: Span,
        right: Boxed<RawProof>,
    },
    /// `rewrite ( proof , motive , proof )`
    Rewrite {
        at: u64,
        equation: Boxed<RawProof>,
        motive: RawMotive,
        proof: Boxed<RawProof>,
    },
    /// `induct ( motive , term , proof , b id id . proof )`
    Induct {
        at: u64,
        motive: RawMotive,
        term: RawTerm,
        zero: Boxed<RawProof>,
        name: Binder,
        below: Span,
        hypothesis: Span,
        next: Boxed<RawProof>,
    },
    /// `split ( motive , term , proof , proof )`
    Split {
        at: u64,
        motive: RawMotive,
        term: RawTerm,
        yes: Boxed<RawProof>,
        no: Boxed<RawProof>,
    },
    /// `axiom id [ monos ] ( args )`; without monotypes the square brackets are missing.
    Axiom {
        at: u64,
        name: Span,
        monos: Seq<RawMono>,
        arguments: Seq<RawArg>,
    },
    /// `axiom id . num ( arg { , arg } )`
    Unfold {
        at: u64,
        name: Span,
        number: u64,
        first: RawArg,
        rest: Seq<RawArg>,
    },
    /// `lem [ formula ]`
    Lem {
        at: u64,
        formula: RawFormula,
    },
    /// `the [ formula ] ( proof )`
    The {
        at: u64,
        formula: RawFormula,
        proof: Boxed<RawProof>,
    },
}

/// The word of an end that has one proof.
#[derive(Clone, Copy, Debug, PartialEq, Eq)]
pub enum UnaryRule {
    First,
    Second,
    Left,
    Right,
    Absurd,
}

/// `b . [ formula ]`
#[derive(Drop)]
pub struct RawMotive {
    pub name: Binder,
    pub formula: RawFormula,
}

/// What a quantified formula or an axiom is used at: `@ heap`, or a term.
#[derive(Drop)]
pub enum RawArg {
    Heap { at: u64, heap: RawHeap },
    Term(RawTerm),
}
