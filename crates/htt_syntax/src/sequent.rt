//! What a proof proves, and what stands around a phrase.

use crate::mono::Mono;
use crate::tree::{Formula, Term, Ty};
use htt_syntax_seq::Seq;

/// An entry of a context.
#[derive(Drop)]
pub enum Entry {
    Mono,
    Term(Ty),
    Heap,
}

/// A goal under hypotheses. The outermost entry of the context comes first, and each entry stands
/// under those before it.
#[derive(Drop)]
pub struct Sequent {
    pub context: Seq<Entry>,
    pub hyps: Seq<Formula>,
    pub goal: Formula,
}

/// What a phrase may name: the entries around it, the types of the values, the definitions with
/// their types, and the recursive predicates.
#[derive(Drop)]
pub struct Env {
    pub entries: Seq<Entry>,
    pub vals: Seq<Ty>,
    pub defs: Seq<(Ty, Term)>,
    pub recs: Seq<RecPred>,
}

/// A recursive predicate: the monotypes of its parameters, what it says at index 0, and what it
/// says at an index above. `zero` stands under the parameters and then the heap, `next` under the
/// index less one, the parameters and then the heap.
#[derive(Drop)]
pub struct RecPred {
    pub params: Seq<Mono>,
    pub zero: Formula,
    pub next: Formula,
}
