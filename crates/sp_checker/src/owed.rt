//! What each step owes in a state R.

ghost use Rattle.std.specs.Prelude.{◌≡◌, IfOk, Option, Some, option_map};
ghost use Rattle.htt_syntax.specs.Trees.{FormulaTree};
ghost use Rattle.htt_syntax.specs.Views.{mono_tree, term_tree, formula_tree};
ghost use Rattle.htt_syntax.specs.Levels.{triple_tree};
ghost use Rattle.theory_states.specs.States.{owed, owes_block, move_get, move_run, move_claim};
ghost use Rattle.sp_checker.specs.Made.{MakesOwed};
ghost use Rattle.sp_checker.specs.Moves.{move_tree};

use crate::moves::Move;
use crate::nodes::{and, block, cell, imp, some_heap, some_value};
use crate::values::{mono_past, needed_at, term_past};
use htt_syntax::{Formula, Mono, Term, Triple};
use htt_syntax_walk::copy_formula;
use std::alloc::{AllocError, Global};

/// `R => ex v : t . ex g : heap . ex k : heap . Cell[t](g, M, v) /\ Join(mem, g, k)`.
fn owed_get(
    alloc: Global,
    mono: &Mono,
    place: &Term,
    state: &Formula,
) -> Result<Formula, AllocError>
    ensures owed { MakesOwed result (owed (move_get (mono_tree mono.now) (term_tree place.now)) (formula_tree state.now)) }
{
    let held = cell(
        mono_past(alloc, mono, 5),
        1,
        term_past(alloc, place, 5),
        Ok(Term::Var(2)),
    );
    let split = and(alloc, held, Ok(Formula::Join(3, 1, 0)));
    let some = some_heap(alloc, some_heap(alloc, split));
    imp(
        alloc,
        copy_formula(alloc, state),
        some_value(alloc, mono_past(alloc, mono, 2), some),
    )
}

/// `R => ex g : heap . ex k : heap . Block[t](g, M) /\ Join(mem, g, k)`.
fn owed_block(
    alloc: Global,
    mono: &Mono,
    place: &Term,
    state: &Formula,
) -> Result<Formula, AllocError>
    ensures owed { MakesOwed result (Some (owes_block (formula_tree state.now) (mono_tree mono.now) (term_tree place.now))) }
{
    let there = block(mono_past(alloc, mono, 4), 1, term_past(alloc, place, 4));
    let split = and(alloc, there, Ok(Formula::Join(2, 1, 0)));
    imp(
        alloc,
        copy_formula(alloc, state),
        some_heap(alloc, some_heap(alloc, split)),
    )
}

/// `R => ex g : heap . ex k : heap . Join(mem, g, k) /\ P[g]`.
fn owed_run(alloc: Global, triple: &Triple, state: &Formula) -> Result<Formula, AllocError>
    ensures owed { MakesOwed result (owed (move_run (triple_tree triple.now)) (formula_tree state.now)) }
{
    let split = and(
        alloc,
        Ok(Formula::Join(2, 1, 0)),
        needed_at(alloc, &triple.pre, 1, 4),
    );
    imp(
        alloc,
        copy_formula(alloc, state),
        some_heap(alloc, some_heap(alloc, split)),
    )
}

/// `R => F`.
fn owed_claim(alloc: Global, claim: &Formula, state: &Formula) -> Result<Formula, AllocError>
    ensures owed { MakesOwed result (owed (move_claim (formula_tree claim.now)) (formula_tree state.now)) }
{
    imp(
        alloc,
        copy_formula(alloc, state),
        copy_formula(alloc, claim),
    )
}

/// What was made is owed.
fn some(made: Result<Formula, AllocError>) -> Result<Option<Formula>, AllocError>
    ensures some { (o : Option FormulaTree) → MakesOwed made o → IfOk result (λ x. option_map formula_tree x ≡ o) }
{
    Ok(Some(made?))
}

/// What a step owes in a state, if anything.
#[tactic(auto, unfolding(theory_states::specs::States::owed))]
pub(crate) fn owed(
    alloc: Global,
    step: &Move,
    state: &Formula,
) -> Result<Option<Formula>, AllocError>
    ensures owed { IfOk result (λ o. option_map formula_tree o ≡ owed (move_tree step.now) (formula_tree state.now)) }
{
    match step {
        Move::Alloc(..) => Ok(None),
        Move::Get(mono, place) => some(owed_get(alloc, mono, place, state)),
        Move::Set(mono, place, _) => some(owed_block(alloc, mono, place, state)),
        Move::Free(mono, place) => some(owed_block(alloc, mono, place, state)),
        Move::Run(triple) => some(owed_run(alloc, triple, state)),
        Move::Claim(claim) => some(owed_claim(alloc, claim, state)),
    }
}
