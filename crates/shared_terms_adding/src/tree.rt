//! Trees that are borrowed. A type that reaches much is pointed at through its box.

use htt_syntax::{Comp, Fix, Formula, Mono, Step, Term, Triple, Ty};
use sqlite_items::Boxed;

/// A tree that a row may stand for.
#[derive(Clone, Copy)]
pub enum Tree<'a> {
    Mono(&'a Mono),
    Ty(&'a Ty),
    Triple(&'a Boxed<Triple>),
    /// The triple of a recursive function.
    FixTriple(&'a Boxed<Fix>),
    Term(&'a Term),
    Terms(&'a [Term]),
    /// A recursive function from this parameter on.
    Fix(&'a Boxed<Fix>, usize),
    /// A computation from this step on.
    Comp(&'a Comp, usize),
    Step(&'a Step),
    Formula(&'a Formula),
}
