//! Proofs. Hypotheses are numbered apart from the variables: what adds a hypothesis binds none.

use crate::mono::Mono;
use crate::tree::{Formula, Term};
use htt_syntax_seq::Seq;
use sqlite_items::Boxed;

/// What a quantified formula or an axiom is used at.
#[derive(Drop)]
pub enum Arg {
    Heap(u32),
    Term(Term),
}

/// A proof. A motive is a formula that stands under one variable.
#[cycle(proof)]
#[derive(Drop)]
pub enum Proof {
    /// The hypothesis at this place in the list of hypotheses, counted from 0.
    Hyp(u32),
    Trivial,
    Refl,
    First(Boxed<Proof>),
    Second(Boxed<Proof>),
    Left(Boxed<Proof>),
    Right(Boxed<Proof>),
    Absurd(Boxed<Proof>),
    Both(Boxed<Proof>, Boxed<Proof>),
    Give(Arg, Boxed<Proof>),
    App(Boxed<Proof>, Boxed<Proof>),
    Inst(Boxed<Proof>, Arg),
    Case(Boxed<Proof>, Boxed<Proof>, Boxed<Proof>),
    /// The equation, the motive, and the proof of the motive at the equation's left side.
    Rewrite(Boxed<Proof>, Formula, Boxed<Proof>),
    /// The motive, the word, the proof for 0, and the proof for a next word, which stands under
    /// the word before it.
    Induct(Formula, Term, Boxed<Proof>, Boxed<Proof>),
    /// The motive, the truth value, and the proofs for true and for false.
    Split(Formula, Term, Boxed<Proof>, Boxed<Proof>),
    /// The bytes of the axiom's name, its monotypes and its arguments.
    Axiom(Seq<u8>, Seq<Mono>, Seq<Arg>),
    Lem(Formula),
    The(Formula, Boxed<Proof>),
    /// Statements, and the proof of what they leave. What follows a statement `Gen` or `Unpack`
    /// stands under the variable that it adds.
    Block(Seq<Stmt>, Boxed<Proof>),
    At(u64, Boxed<Proof>),
    /// The number of a recursive predicate, and what one of its unfoldings is used at.
    Unfold(u32, u64, Seq<Arg>),
}

/// A statement of a block.
#[cycle(proof)]
#[derive(Drop)]
pub enum Stmt {
    Intro,
    Gen,
    Have(Formula, Proof),
    Unpack(Proof),
    At(u64, Boxed<Stmt>),
}
