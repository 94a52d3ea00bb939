//! Types, terms, computations and formulas, which speak of one another. `at` is the first byte of a
//! phrase; a phrase without one begins with its first part.

use crate::mono::RawMono;
use crate::place::{Binder, Span};
use htt_syntax_seq::Seq;
use sqlite_items::Boxed;

/// A type.
#[cycle(raw)]
#[derive(Drop)]
pub enum RawTy {
    /// `( b : type ) -> type`
    Fun {
        at: u64,
        parameter: Binder,
        argument: Boxed<RawTy>,
        answer: Boxed<RawTy>,
    },
    /// `[ id ] -> type`
    All {
        at: u64,
        parameter: Span,
        body: Boxed<RawTy>,
    },
    Hoare {
        at: u64,
        triple: Boxed<RawTriple>,
    },
    Mono(RawMono),
}

/// `{ formula } b : mono { formula }`
#[cycle(raw)]
#[derive(Drop)]
pub struct RawTriple {
    pub pre: RawFormula,
    pub name: Binder,
    pub result: RawMono,
    pub post: RawFormula,
}

/// A term.
#[cycle(raw)]
#[derive(Drop)]
pub enum RawTerm {
    /// `fun b . term`
    Fun {
        at: u64,
        parameter: Binder,
        body: Boxed<RawTerm>,
    },
    /// `fun [ id ] . term`
    FunMono {
        at: u64,
        parameter: Span,
        body: Boxed<RawTerm>,
    },
    /// `do comp`
    Do {
        at: u64,
        body: Boxed<RawComp>,
    },
    /// `fix id { ( b : type ) } : triple . comp`
    Fix {
        at: u64,
        fix: Boxed<RawFix>,
    },
    Rel(Boxed<RawRel>),
}

/// What stands after `fix`: the name, the parameters, the triple and the body.
#[cycle(raw)]
#[derive(Drop)]
pub struct RawFix {
    pub name: Span,
    pub params: Seq<RawParam>,
    pub triple: RawTriple,
    pub body: RawComp,
}

/// `( id : type )` or `( _ : type )`
#[cycle(raw)]
#[derive(Drop)]
pub enum RawParam {
    Named { name: Span, ty: RawTy },
    Blank { ty: RawTy },
}

/// `sum [ < sum ]`
#[cycle(raw)]
#[derive(Drop)]
pub enum RawRel {
    Sum(RawSum),
    Less(RawSum, RawSum),
}

/// A chain of `+`, `-`, `|` and `^`, which group to the left.
#[cycle(raw)]
#[derive(Drop)]
pub struct RawSum {
    pub first: RawProd,
    pub rest: Seq<SumOperand>,
}

/// A further operand of a sum with the sign before it.
#[cycle(raw)]
#[derive(Drop)]
pub enum SumOperand {
    /// `+ prod`
    Plus(RawProd),
    /// `- prod`
    Minus(RawProd),
    /// `| prod`
    Bar(RawProd),
    /// `^ prod`
    Caret(RawProd),
}

/// A chain of `*`, `&`, `<<` and `>>`, which group to the left.
#[cycle(raw)]
#[derive(Drop)]
pub struct RawProd {
    pub first: RawAppl,
    pub rest: Seq<ProdOperand>,
}

/// A further operand of a product with the sign before it.
#[cycle(raw)]
#[derive(Drop)]
pub enum ProdOperand {
    /// `* appl`
    Times(RawAppl),
    /// `& appl`
    And(RawAppl),
    /// `<< appl`
    ShiftLeft(RawAppl),
    /// `>> appl`
    ShiftRight(RawAppl),
}

/// An application: a word before an atom, or an atom with what it is applied to.
#[cycle(raw)]
#[derive(Drop)]
pub enum RawAppl {
    Unary {
        at: u64,
        word: UnaryWord,
        operand: RawAtom,
    },
    Apply {
        head: RawAtom,
        parts: Seq<RawPart>,
    },
}

/// A word that stands before an atom.
#[derive(Clone, Copy, Debug, PartialEq, Eq)]
pub enum UnaryWord {
    Fst,
    Snd,
    Not,
}

/// What a head is applied to.
#[cycle(raw)]
#[derive(Drop)]
pub enum RawPart {
    Atom(RawAtom),
    /// `[ mono ]`
    Mono(RawMono),
}

/// An atom.
#[cycle(raw)]
#[derive(Drop)]
pub enum RawAtom {
    Name(Span),
    Number {
        at: u64,
        value: u64,
    },
    True {
        at: u64,
    },
    False {
        at: u64,
    },
    Null {
        at: u64,
    },
    /// `place num`
    Place {
        at: u64,
        value: u64,
    },
    /// `eq [ mono ] ( term , term )`
    Eq {
        at: u64,
        mono: RawMono,
        left: Boxed<RawTerm>,
        right: Boxed<RawTerm>,
    },
    /// `sel [ mono ] ( term , term , term )`
    Sel {
        at: u64,
        mono: RawMono,
        test: Boxed<RawTerm>,
        yes: Boxed<RawTerm>,
        no: Boxed<RawTerm>,
    },
    /// `( )`
    Unit {
        at: u64,
    },
    /// `( term )`
    Brackets {
        at: u64,
        term: Boxed<RawTerm>,
    },
    /// `( term , term )`
    Pair {
        at: u64,
        left: Boxed<RawTerm>,
        right: Boxed<RawTerm>,
    },
    /// `( term : type )`
    Annotated {
        at: u64,
        term: Boxed<RawTerm>,
        ty: Boxed<RawTy>,
    },
}

/// `{ b <- step ; } ret term`
#[cycle(raw)]
#[derive(Drop)]
pub struct RawComp {
    pub steps: Seq<RawStep>,
    pub result: RawTerm,
}

/// `b <- step ;`, where `name` is what the step binds.
#[cycle(raw)]
#[derive(Drop)]
pub enum RawStep {
    /// `alloc [ mono ] atom`
    Alloc {
        name: Binder,
        mono: RawMono,
        value: RawAtom,
    },
    /// `get [ mono ] atom`
    Get {
        name: Binder,
        mono: RawMono,
        place: RawAtom,
    },
    /// `set [ mono ] atom atom`
    Set {
        name: Binder,
        mono: RawMono,
        place: RawAtom,
        value: RawAtom,
    },
    /// `free [ mono ] atom`
    Free {
        name: Binder,
        mono: RawMono,
        place: RawAtom,
    },
    /// `if [ mono ] atom { comp } { comp }`
    If {
        name: Binder,
        mono: RawMono,
        test: RawAtom,
        yes: RawComp,
        no: RawComp,
    },
    /// `claim { formula }`
    Claim {
        name: Binder,
        formula: RawFormula,
    },
    Run {
        name: Binder,
        routine: RawAppl,
    },
}

/// A formula.
#[cycle(raw)]
#[derive(Drop)]
pub enum RawFormula {
    All {
        at: u64,
        name: Binder,
        sort: RawSort,
        body: Boxed<RawFormula>,
    },
    Ex {
        at: u64,
        name: Binder,
        sort: RawSort,
        body: Boxed<RawFormula>,
    },
    Disj(Boxed<RawDisj>),
    /// `disj => formula`
    Implies(Boxed<RawDisj>, Boxed<RawFormula>),
}

/// What a quantifier ranges over.
#[derive(Drop)]
pub enum RawSort {
    Mono(RawMono),
    Heap,
}

/// `conj [ \/ disj ]`
#[cycle(raw)]
#[derive(Drop)]
pub enum RawDisj {
    Conj(RawConj),
    Or(RawConj, Boxed<RawDisj>),
}

/// `star [ /\ conj ]`
#[cycle(raw)]
#[derive(Drop)]
pub enum RawConj {
    Star(RawStar),
    And(RawStar, Boxed<RawConj>),
}

/// `fatom [ ** star ]`
#[cycle(raw)]
#[derive(Drop)]
pub enum RawStar {
    Fatom(RawFatom),
    Times(RawFatom, Boxed<RawStar>),
}

/// A formula that is no chain.
#[cycle(raw)]
#[derive(Drop)]
pub enum RawFatom {
    Tt {
        at: u64,
    },
    Ff {
        at: u64,
    },
    Emp {
        at: u64,
    },
    /// `[ formula ]`
    Brackets {
        at: u64,
        formula: Boxed<RawFormula>,
    },
    /// `@ heap [ formula ]`
    AtHeap {
        at: u64,
        heap: RawHeap,
        formula: Boxed<RawFormula>,
    },
    /// `Emp ( heap )`
    EmpOf {
        at: u64,
        heap: RawHeap,
    },
    /// `Same ( heap , heap )`
    Same {
        at: u64,
        left: RawHeap,
        right: RawHeap,
    },
    /// `Join ( heap , heap , heap )`
    Join {
        at: u64,
        whole: RawHeap,
        left: RawHeap,
        right: RawHeap,
    },
    /// `Cell [ mono ] ( heap , term , term )`
    Cell {
        at: u64,
        mono: RawMono,
        heap: RawHeap,
        place: Boxed<RawTerm>,
        value: Boxed<RawTerm>,
    },
    /// `Block [ mono ] ( heap , term )`
    Block {
        at: u64,
        mono: RawMono,
        heap: RawHeap,
        place: Boxed<RawTerm>,
    },
    /// `! id [ monos ] ( terms )`; without monotypes the square brackets are missing.
    Use {
        at: u64,
        name: Span,
        monos: Seq<RawMono>,
        arguments: Seq<RawTerm>,
    },
    /// `! id ( term ; terms )`
    UseAt {
        at: u64,
        name: Span,
        index: Boxed<RawTerm>,
        arguments: Seq<RawTerm>,
    },
    /// `! id @ heap ( term ; terms )`
    UseAtHeap {
        at: u64,
        name: Span,
        heap: RawHeap,
        index: Boxed<RawTerm>,
        arguments: Seq<RawTerm>,
    },
    /// `rel = [ mono ] rel`
    Eq {
        left: Boxed<RawRel>,
        mono: RawMono,
        right: Boxed<RawRel>,
    },
    /// `rel |-> [ mono ] rel`
    PointsTo {
        place: Boxed<RawRel>,
        mono: RawMono,
        value: Boxed<RawRel>,
    },
    /// `rel |-> [ mono ] _`
    PointsToAny {
        place: Boxed<RawRel>,
        mono: RawMono,
    },
}

/// A heap: a name, or `init` or `mem` with the number of binders that it passes over, if it is
/// written.
#[derive(Clone, Copy, Debug, PartialEq, Eq)]
pub enum RawHeap {
    Name(Span),
    Init { at: u64, over: Option<u64> },
    Mem { at: u64, over: Option<u64> },
}
