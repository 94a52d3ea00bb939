//! Items: what the declarations of a file are, with their names looked up and their sugar replaced.

use htt_resolve_names::Names;
use htt_syntax::{Formula, Mono, RecPred, Term, Ty};
use htt_syntax_seq::Seq;

/// A declaration of a file.
#[derive(Drop)]
pub enum Item {
    /// `type`: the monotype that the name stands for.
    Abbreviation(Mono),
    /// `pred`: how many monotypes it takes, its parameters and its body. `params[i]` stands under the monotypes and
    /// the `i` parameters before it, the body under all of them and then the heap `mem`.
    Pred {
        monos: u32,
        params: Seq<Mono>,
        body: Formula,
    },
    Def(Ty, Term),
    Val(Ty, Term),
    /// `pred .. induct`
    Rec(RecPred),
    /// `proof`: the place among the items, counted from 0, of the item that has the name, if one has, and the number
    /// of the obligation.
    Proof {
        target: Option<u32>,
        number: u64,
    },
}

/// What a file stands for: an item for each declaration, and what its names stand for.
#[derive(Drop)]
pub struct Resolved {
    pub items: Seq<Item>,
    pub names: Names,
}
