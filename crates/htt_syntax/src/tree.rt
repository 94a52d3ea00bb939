//! Types, terms, computations and formulas, which speak of one another. A variable is an index
//! that counts the binders between its place and its own; 0 is the innermost. Monotype variables,
//! term variables and heaps are counted together. `At` marks the byte of the text at which a
//! phrase begins, and means nothing else.

use crate::mono::{Mono, Op};
use htt_syntax_seq::Seq;
use sqlite_items::Boxed;

/// A type.
#[cycle(tree)]
#[derive(Drop)]
pub enum Ty {
    Mono(Mono),
    /// A function; the second type stands under the argument.
    Fun(Boxed<Ty>, Boxed<Ty>),
    /// A type for every monotype; it stands under the monotype.
    All(Boxed<Ty>),
    Hoare(Boxed<Triple>),
    At(u64, Boxed<Ty>),
}

/// What a computation needs, answers and leaves. `pre` stands under the heap `mem`; `post` under
/// the result, then the heaps `init` and `mem`.
#[cycle(tree)]
#[derive(Drop)]
pub struct Triple {
    pub pre: Formula,
    pub result: Mono,
    pub post: Formula,
}

/// A term.
#[cycle(tree)]
#[derive(Drop)]
pub enum Term {
    Var(u32),
    /// The value declared at this place in the list of values, counted from 0.
    Val(u32),
    /// The definition at this place in the list of definitions, counted from 0.
    Def(u32),
    App(Boxed<Term>, Boxed<Term>),
    Inst(Boxed<Term>, Mono),
    /// A function; its body stands under the argument.
    Lam(Boxed<Term>),
    /// A function of a monotype; its body stands under the monotype.
    LamT(Boxed<Term>),
    Do(Boxed<Comp>),
    Fix(Boxed<Fix>),
    Word(u64),
    Bool(bool),
    Loc(u64),
    Unit,
    Pair(Boxed<Term>, Boxed<Term>),
    Fst(Boxed<Term>),
    Snd(Boxed<Term>),
    /// The negation of a truth value.
    Un(Boxed<Term>),
    Bin(Op, Boxed<Term>, Boxed<Term>),
    /// Whether two values of the monotype are equal.
    Eq(Mono, Boxed<Term>, Boxed<Term>),
    /// The test, what is taken where it is true, and what is taken where it is false.
    Sel(Mono, Boxed<Term>, Boxed<Term>, Boxed<Term>),
    Ann(Boxed<Term>, Boxed<Ty>),
    /// A function that was made for these captured values: its number, and the values.
    Made(u32, Seq<Term>),
    At(u64, Boxed<Term>),
}

/// A recursive function. `at` is the byte of its keyword. Each parameter stands under those before
/// it, `triple` under all of them, and `body` under all of them and then the function itself.
#[cycle(tree)]
#[derive(Drop)]
pub struct Fix {
    pub at: u64,
    pub params: Seq<Ty>,
    pub triple: Triple,
    pub body: Comp,
}

/// A computation. Each step stands under the variables that the steps before it bind, one each,
/// and `result` under those of all of them.
#[cycle(tree)]
#[derive(Drop)]
pub struct Comp {
    pub steps: Seq<Step>,
    pub result: Term,
}

/// A step of a computation. What it answers is bound for what follows.
#[cycle(tree)]
#[derive(Drop)]
pub enum Step {
    /// Runs a computation. In a canonical tree it has the monotype of the result.
    Run(Term, Option<Mono>),
    /// Allocates a block for this value.
    Alloc(Mono, Term),
    /// Reads the value at this location.
    Get(Mono, Term),
    /// Writes at this location this value.
    Set(Mono, Term, Term),
    /// Frees the block at this location.
    Free(Mono, Term),
    /// The test, and what runs where it is true and where it is false.
    If(Mono, Term, Comp, Comp),
    /// States a formula, which stands under the heaps `init` and `mem`.
    Claim(Formula),
}

/// A formula over terms and heaps. A heap is named by its index.
#[cycle(tree)]
#[derive(Drop)]
pub enum Formula {
    Tt,
    Ff,
    And(Boxed<Formula>, Boxed<Formula>),
    Or(Boxed<Formula>, Boxed<Formula>),
    Imp(Boxed<Formula>, Boxed<Formula>),
    /// For all values of the monotype; the formula stands under the value.
    AllT(Mono, Boxed<Formula>),
    /// For some value of the monotype; the formula stands under the value.
    ExT(Mono, Boxed<Formula>),
    /// For all heaps; the formula stands under the heap.
    AllH(Boxed<Formula>),
    /// For some heap; the formula stands under the heap.
    ExH(Boxed<Formula>),
    /// The heap is empty.
    Emp(u32),
    /// The heap is one block, at this location, which holds this value.
    Cell(Mono, u32, Term, Term),
    /// The heap is one block, at this location, as wide as the monotype; it may hold any words.
    Block(Mono, u32, Term),
    /// The first heap is the other two, which share no location.
    Join(u32, u32, u32),
    /// The heaps are equal.
    Same(u32, u32),
    Eq(Mono, Term, Term),
    At(u64, Boxed<Formula>),
    /// A recursive predicate: its number, the heap, the index and the arguments.
    Rec(u32, u32, Term, Seq<Term>),
}
