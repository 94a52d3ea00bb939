//! The state before the first step, and the state after each step, under the step's variable.

ghost use Rattle.std.specs.Prelude.{◌≡◌, IfOk, option_map};
ghost use Rattle.htt_syntax.specs.Views.{mono_tree, term_tree, formula_tree};
ghost use Rattle.htt_syntax.specs.Levels.{triple_tree};
ghost use Rattle.theory_states.specs.States as states;
ghost use Rattle.theory_states.specs.States.{move_alloc, move_get, move_set, move_free, move_run, move_claim};
ghost use Rattle.sp_checker.specs.Made.{Makes};
ghost use Rattle.sp_checker.specs.Moves.{move_tree};

use crate::moves::{AfterMove, Move};
use crate::nodes::{all_heaps, and, block, cell, imp, some_heap};
use crate::owed::owed;
use crate::values::{left_at, mono_past, needed_at, state_at, term_past};
use htt_syntax::{Formula, Mono, Term, Triple};
use std::alloc::{AllocError, Global};

/// The state before the first step: `P[init] /\ Same(mem, init)`. It fails for want of memory, or where an index or
/// a depth would pass 32 bits.
pub fn start(alloc: Global, pre: &Formula) -> Result<Formula, AllocError>
    ensures state { Makes result (states.start (formula_tree pre.now)) }
{
    and(alloc, needed_at(alloc, pre, 1, 2), Ok(Formula::Same(0, 1)))
}

/// `ex b : heap . R[b] /\ [ex g : heap . Cell[t](g, x, N) /\ Join(mem, b, g)]`.
fn after_alloc(
    alloc: Global,
    mono: &Mono,
    value: &Term,
    state: &Formula,
) -> Result<Formula, AllocError>
    ensures state { Makes result (states.after (move_alloc (mono_tree mono.now) (term_tree value.now)) (formula_tree state.now)) }
{
    let held = cell(
        mono_past(alloc, mono, 5),
        0,
        Ok(Term::Var(4)),
        term_past(alloc, value, 5),
    );
    let added = some_heap(alloc, and(alloc, held, Ok(Formula::Join(2, 1, 0))));
    some_heap(alloc, and(alloc, state_at(alloc, state, 0, 2, 4), added))
}

/// `R /\ [ex g : heap . ex k : heap . Cell[t](g, M, x) /\ Join(mem, g, k)]`.
fn after_get(
    alloc: Global,
    mono: &Mono,
    place: &Term,
    state: &Formula,
) -> Result<Formula, AllocError>
    ensures state { Makes result (states.after (move_get (mono_tree mono.now) (term_tree place.now)) (formula_tree state.now)) }
{
    let held = cell(
        mono_past(alloc, mono, 5),
        1,
        term_past(alloc, place, 5),
        Ok(Term::Var(4)),
    );
    let split = and(alloc, held, Ok(Formula::Join(2, 1, 0)));
    and(
        alloc,
        state_at(alloc, state, 0, 1, 3),
        some_heap(alloc, some_heap(alloc, split)),
    )
}

/// `ex b : heap . ex g : heap . ex n : heap . ex k : heap .
/// R[b] /\ Block[t](g, M) /\ Join(b, g, k) /\ Cell[t](n, M, N) /\ Join(mem, n, k)`.
fn after_set(
    alloc: Global,
    mono: &Mono,
    place: &Term,
    value: &Term,
    state: &Formula,
) -> Result<Formula, AllocError>
    ensures state { Makes result (states.after (move_set (mono_tree mono.now) (term_tree place.now) (term_tree value.now)) (formula_tree state.now)) }
{
    let held = cell(
        mono_past(alloc, mono, 7),
        1,
        term_past(alloc, place, 7),
        term_past(alloc, value, 7),
    );
    let now = and(
        alloc,
        Ok(Formula::Join(3, 2, 0)),
        and(alloc, held, Ok(Formula::Join(4, 1, 0))),
    );
    let there = block(mono_past(alloc, mono, 7), 2, term_past(alloc, place, 7));
    let all = and(
        alloc,
        state_at(alloc, state, 3, 5, 7),
        and(alloc, there, now),
    );
    some_heap(
        alloc,
        some_heap(alloc, some_heap(alloc, some_heap(alloc, all))),
    )
}

/// `ex b : heap . ex g : heap . R[b] /\ Block[t](g, M) /\ Join(b, g, mem)`.
fn after_free(
    alloc: Global,
    mono: &Mono,
    place: &Term,
    state: &Formula,
) -> Result<Formula, AllocError>
    ensures state { Makes result (states.after (move_free (mono_tree mono.now) (term_tree place.now)) (formula_tree state.now)) }
{
    let there = block(mono_past(alloc, mono, 5), 0, term_past(alloc, place, 5));
    let split = and(alloc, there, Ok(Formula::Join(1, 0, 2)));
    some_heap(
        alloc,
        some_heap(alloc, and(alloc, state_at(alloc, state, 1, 3, 5), split)),
    )
}

/// `ex b : heap . R[b] /\ [all g : heap . all k : heap . [Join(b, g, k) /\ P[g]]
/// => ex n : heap . Join(mem, n, k) /\ Q[g, n, x]]`.
fn after_run(alloc: Global, triple: &Triple, state: &Formula) -> Result<Formula, AllocError>
    ensures state { Makes result (states.after (move_run (triple_tree triple.now)) (formula_tree state.now)) }
{
    let given = and(
        alloc,
        Ok(Formula::Join(2, 1, 0)),
        needed_at(alloc, &triple.pre, 1, 6),
    );
    let left = and(
        alloc,
        Ok(Formula::Join(4, 0, 1)),
        left_at(alloc, &triple.post, 2, 0, 6, 7),
    );
    let each = imp(alloc, given, some_heap(alloc, left));
    let splits = all_heaps(alloc, all_heaps(alloc, each));
    some_heap(alloc, and(alloc, state_at(alloc, state, 0, 2, 4), splits))
}

/// The state after a step.
fn next(alloc: Global, step: &Move, state: &Formula) -> Result<Formula, AllocError>
    ensures state { Makes result (states.after (move_tree step.now) (formula_tree state.now)) }
{
    match step {
        Move::Alloc(mono, value) => after_alloc(alloc, mono, value, state),
        Move::Get(mono, place) => after_get(alloc, mono, place, state),
        Move::Set(mono, place, value) => after_set(alloc, mono, place, value, state),
        Move::Free(mono, place) => after_free(alloc, mono, place, state),
        Move::Run(triple) => after_run(alloc, triple, state),
        Move::Claim(claim) => state_at(alloc, claim, 0, 1, 3),
    }
}

/// What a step owes in a state, and the state after it, which stands under the step's variable. It fails for want of
/// memory, or where an index or a depth would pass 32 bits.
pub fn after(alloc: Global, step: &Move, state: &Formula) -> Result<AfterMove, AllocError>
    ensures state { IfOk result (λ a. formula_tree a.state ≡ states.after (move_tree step.now) (formula_tree state.now)) }
    ensures owed { IfOk result (λ a. option_map formula_tree a.owed ≡ states.owed (move_tree step.now) (formula_tree state.now)) }
{
    let owed = owed(alloc, step, state)?;
    let state = next(alloc, step, state)?;
    Ok(AfterMove { state, owed })
}
