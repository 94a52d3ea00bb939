//! The declared names of a file, and what a use of each of them stands for.

use htt_syntax::{Formula, Mono};
use htt_syntax_seq::Seq;

/// What a use of a declared name stands for.
#[derive(Drop)]
pub enum Meaning {
    /// A closed monotype.
    Mono(Mono),
    /// A predicate: how many monotypes it takes, its parameters and its body. `params[i]` stands under the monotypes and
    /// the `i` parameters before it, the body under all of them and then the heap `mem`.
    Pred {
        monos: u32,
        params: Seq<Mono>,
        body: Formula,
    },
    /// The number of a recursive predicate among them, and the count of its parameters.
    Rec {
        number: u32,
        params: u32,
    },
    /// The number of a definition among them.
    Def(u32),
    /// The number of a value among them.
    Val(u32),
}

/// The bytes of a declared name, and what it stands for.
#[derive(Drop)]
pub struct Declared {
    pub name: Seq<u8>,
    pub meaning: Meaning,
}

/// A row for each item of a file: the name that it declares, which is none for a proof.
#[derive(Drop)]
pub struct Names {
    pub rows: Seq<Option<Declared>>,
}
