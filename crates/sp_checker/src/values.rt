//! Monotypes and terms that go past the entries of a state, and the state and the conditions of a triple at other
//! heaps.

ghost use Rattle.htt_syntax.specs.Views.{mono_tree, term_tree, formula_tree};
ghost use Rattle.theory_renaming.specs.Renaming.{lifts, rename_mono, rename_term, rename_formula};
ghost use Rattle.theory_states.specs.States.{past, at_heaps, at_heap, at_result};
ghost use Rattle.sp_checker.specs.Made.{Makes, MakesMono, MakesTerm};

use assertions::rename_past;
use htt_syntax::{Formula, Mono, Term, Triple};
use htt_syntax_shift::{shift_mono, shift_term};
use std::alloc::{AllocError, Global};

/// The monotype past `by` more variables.
#[tactic(auto, using(crate::proofs::PastMaps::mono_past))]
pub(crate) fn mono_past(alloc: Global, mono: &Mono, by: u32) -> Result<Mono, AllocError>
    ensures past { MakesMono result (rename_mono (past by) (mono_tree mono.now)) }
{
    shift_mono(alloc, mono, 0, by)
}

/// The term past `by` more variables.
#[tactic(auto, using(crate::proofs::PastMaps::term_past))]
pub(crate) fn term_past(alloc: Global, term: &Term, by: u32) -> Result<Term, AllocError>
    ensures past { MakesTerm result (rename_term (past by) (term_tree term.now)) }
{
    shift_term(alloc, term, 0, by)
}

/// A state where `mem` and `init` stand for its heaps, and the rest goes past `by` variables.
#[tactic(auto, using(assertions::proofs::Lists::two_heaps))]
pub(crate) fn state_at(
    alloc: Global,
    state: &Formula,
    mem: u32,
    init: u32,
    by: u32,
) -> Result<Formula, AllocError>
    ensures there { Makes result (rename_formula (at_heaps mem init by) (formula_tree state.now)) }
{
    rename_past(alloc, state, &[mem, init], by)
}

/// A precondition where `heap` stands for its `mem`, and the rest goes past `by` variables.
#[tactic(auto, using(assertions::proofs::Lists::one_heap))]
pub(crate) fn needed_at(
    alloc: Global,
    pre: &Formula,
    heap: u32,
    by: u32,
) -> Result<Formula, AllocError>
    ensures there { Makes result (rename_formula (at_heap heap by) (formula_tree pre.now)) }
{
    rename_past(alloc, pre, &[heap], by)
}

/// A postcondition where `before` and `after` stand for its heaps and `value` for its result, and the rest goes past
/// `by` variables.
#[tactic(auto, using(assertions::proofs::Lists::one_result))]
pub(crate) fn left_at(
    alloc: Global,
    post: &Formula,
    before: u32,
    after: u32,
    value: u32,
    by: u32,
) -> Result<Formula, AllocError>
    ensures there { Makes result (rename_formula (at_result before after value by) (formula_tree post.now)) }
{
    rename_past(alloc, post, &[after, before, value], by)
}
