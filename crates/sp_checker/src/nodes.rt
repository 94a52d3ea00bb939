//! Nodes of formulas from parts that were made, or for which memory was wanting. Where each part has a tree, the
//! node has the tree of these.

ghost use Rattle.htt_syntax.specs.Trees.{FormulaTree, MonoTree, TermTree, f_and, f_or, f_imp, f_ex_t, f_ex_h, f_all_h, f_cell, f_block, f_eq};
ghost use Rattle.sp_checker.specs.Made.{Makes, MakesMono, MakesTerm};

use htt_syntax::{Formula, Mono, Term};
use htt_syntax_build::{
    formula_all_h, formula_and, formula_block, formula_cell, formula_eq, formula_ex_h,
    formula_ex_t, formula_imp, formula_or,
};
use htt_syntax_seq::boxed;
use std::alloc::{AllocError, Global};

type Made<T> = Result<T, AllocError>;

/// Both.
pub(crate) fn and(alloc: Global, left: Made<Formula>, right: Made<Formula>) -> Made<Formula>
    ensures made { (f g : FormulaTree) → Makes left f → Makes right g → Makes result (f_and f g) }
{
    formula_and(boxed(alloc, left), boxed(alloc, right))
}

/// Either.
pub(crate) fn or(alloc: Global, left: Made<Formula>, right: Made<Formula>) -> Made<Formula>
    ensures made { (f g : FormulaTree) → Makes left f → Makes right g → Makes result (f_or f g) }
{
    formula_or(boxed(alloc, left), boxed(alloc, right))
}

/// The second where the first is true.
pub(crate) fn imp(alloc: Global, left: Made<Formula>, right: Made<Formula>) -> Made<Formula>
    ensures made { (f g : FormulaTree) → Makes left f → Makes right g → Makes result (f_imp f g) }
{
    formula_imp(boxed(alloc, left), boxed(alloc, right))
}

/// For some value.
pub(crate) fn some_value(alloc: Global, mono: Made<Mono>, body: Made<Formula>) -> Made<Formula>
    ensures made { (t : MonoTree) (f : FormulaTree) → MakesMono mono t → Makes body f → Makes result (f_ex_t t f) }
{
    formula_ex_t(mono, boxed(alloc, body))
}

/// For some heap.
pub(crate) fn some_heap(alloc: Global, body: Made<Formula>) -> Made<Formula>
    ensures made { (f : FormulaTree) → Makes body f → Makes result (f_ex_h f) }
{
    formula_ex_h(boxed(alloc, body))
}

/// For all heaps.
pub(crate) fn all_heaps(alloc: Global, body: Made<Formula>) -> Made<Formula>
    ensures made { (f : FormulaTree) → Makes body f → Makes result (f_all_h f) }
{
    formula_all_h(boxed(alloc, body))
}

/// The heap is one block, which holds this value.
pub(crate) fn cell(
    mono: Made<Mono>,
    heap: u32,
    place: Made<Term>,
    value: Made<Term>,
) -> Made<Formula>
    ensures made { (t : MonoTree) (m n : TermTree) → MakesMono mono t → MakesTerm place m → MakesTerm value n → Makes result (f_cell t heap m n) }
{
    formula_cell(mono, Ok(heap), place, value)
}

/// The heap is one block.
pub(crate) fn block(mono: Made<Mono>, heap: u32, place: Made<Term>) -> Made<Formula>
    ensures made { (t : MonoTree) (m : TermTree) → MakesMono mono t → MakesTerm place m → Makes result (f_block t heap m) }
{
    formula_block(mono, Ok(heap), place)
}

/// Two values are equal.
pub(crate) fn equal(mono: Made<Mono>, left: Made<Term>, right: Made<Term>) -> Made<Formula>
    ensures made { (t : MonoTree) (m n : TermTree) → MakesMono mono t → MakesTerm left m → MakesTerm right n → Makes result (f_eq t m n) }
{
    formula_eq(mono, left, right)
}
