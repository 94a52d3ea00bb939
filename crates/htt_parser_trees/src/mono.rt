//! Monotypes. Brackets round a monotype raise no level, and a text can hold half a million of them
//! in one another, so that the brackets on the left side of a monotype are a list and no tree: what
//! drops or walks a monotype goes only into right operands, of which each raises the level.

use crate::place::Span;
use htt_syntax_seq::Seq;
use sqlite_items::Boxed;

/// The first word of a monotype.
#[derive(Clone, Copy, Debug, PartialEq, Eq)]
pub enum MonoName {
    Word { at: u64 },
    Bool { at: u64 },
    Loc { at: u64 },
    Unit { at: u64 },
    Name(Span),
}

/// A monotype: its first word with what stands at its right, and then the brackets round this, from
/// the innermost to the outermost, each with what stands at the right of it. So `((a * b) * c)` has
/// the word `a`, at its right `b`, and two brackets, the first with `c` at its right, the other with
/// nothing. It begins with the outermost bracket, or with the word where there is none.
#[cycle(raw_mono)]
#[derive(Drop)]
pub struct RawMono {
    pub name: MonoName,
    pub right: RawRight,
    pub brackets: Seq<RawBracket>,
}

/// A pair of brackets, with the byte of the first one, and what stands at the right of it: nothing,
/// or `*` and a monotype.
#[cycle(raw_mono)]
#[derive(Drop)]
pub enum RawBracket {
    Alone { at: u64 },
    Times { at: u64, mono: Boxed<RawMono> },
}

/// What stands at the right of an operand: nothing, or `*` and a monotype.
#[cycle(raw_mono)]
#[derive(Drop)]
pub enum RawRight {
    Nothing,
    Times(Boxed<RawMono>),
}
