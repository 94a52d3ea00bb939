//! Formulas.

ghost use Rattle.std.specs.Prelude.{◌≡◌, ◌+◌, IfOk};
ghost use Rattle.htt_syntax.specs.Views.{formula_tree};
ghost use Rattle.htt_syntax_walk.specs.Walk.{walk_formula};

use crate::action::Action;
use crate::mono::walk_mono;
use crate::terms::{walk_term, walk_terms};
use htt_syntax::Formula;
use htt_syntax_seq::boxed;
use sqlite_items::Boxed;
use std::alloc::{AllocError, Global};

/// The formula with what the action puts for its variables; `depth` binders stand around it.
/// One flat `match`: each form of node is one line, so that a missing or wrong one is seen.
#[cycle(walk)]
#[tactic(auto, using(htt_syntax::specs::Levels::formula_levels, crate::specs::WalkLevels::formula_walks))]
pub fn walk_formula<A: Action>(
    alloc: Global,
    formula: &Formula,
    action: &A,
    depth: u32,
) -> Result<Formula, AllocError>
    ensures walked { IfOk result (λ t. formula_tree t ≡ walk_formula (A.puts action.now) depth (formula_tree formula.now)) }
{
    match formula {
        Formula::Tt => Ok(Formula::Tt),
        Formula::Ff => Ok(Formula::Ff),
        Formula::And(left, right) => htt_syntax_build::formula_and(
            formula_box(alloc, left, action, depth),
            formula_box(alloc, right, action, depth),
        ),
        Formula::Or(left, right) => htt_syntax_build::formula_or(
            formula_box(alloc, left, action, depth),
            formula_box(alloc, right, action, depth),
        ),
        Formula::Imp(left, right) => htt_syntax_build::formula_imp(
            formula_box(alloc, left, action, depth),
            formula_box(alloc, right, action, depth),
        ),
        Formula::AllT(mono, body) => htt_syntax_build::formula_all_t(
            walk_mono(alloc, mono, action, depth),
            formula_box_under(alloc, body, action, depth, 1),
        ),
        Formula::ExT(mono, body) => htt_syntax_build::formula_ex_t(
            walk_mono(alloc, mono, action, depth),
            formula_box_under(alloc, body, action, depth, 1),
        ),
        Formula::AllH(body) => htt_syntax_build::formula_all_h(formula_box_under(
            alloc, body, action, depth, 1,
        )),
        Formula::ExH(body) => htt_syntax_build::formula_ex_h(formula_box_under(
            alloc, body, action, depth, 1,
        )),
        Formula::Emp(heap) => htt_syntax_build::formula_emp(action.at_heap(*heap, depth)),
        Formula::Cell(mono, heap, place, value) => htt_syntax_build::formula_cell(
            walk_mono(alloc, mono, action, depth),
            action.at_heap(*heap, depth),
            walk_term(alloc, place, action, depth),
            walk_term(alloc, value, action, depth),
        ),
        Formula::Block(mono, heap, place) => htt_syntax_build::formula_block(
            walk_mono(alloc, mono, action, depth),
            action.at_heap(*heap, depth),
            walk_term(alloc, place, action, depth),
        ),
        Formula::Join(whole, left, right) => htt_syntax_build::formula_join(
            action.at_heap(*whole, depth),
            action.at_heap(*left, depth),
            action.at_heap(*right, depth),
        ),
        Formula::Same(left, right) => htt_syntax_build::formula_same(
            action.at_heap(*left, depth),
            action.at_heap(*right, depth),
        ),
        Formula::Eq(mono, left, right) => htt_syntax_build::formula_eq(
            walk_mono(alloc, mono, action, depth),
            walk_term(alloc, left, action, depth),
            walk_term(alloc, right, action, depth),
        ),
        Formula::At(at, formula) => htt_syntax_build::formula_at(
            *at,
            formula_box(alloc, formula, action, depth),
        ),
        Formula::Rec(number, heap, place, arguments) => htt_syntax_build::formula_rec(
            *number,
            action.at_heap(*heap, depth),
            walk_term(alloc, place, action, depth),
            walk_terms(alloc, arguments.as_slice(), action, depth),
        ),
    }
}

#[cycle(walk)]
fn formula_box<A: Action>(
    alloc: Global,
    formula: &Boxed<Formula>,
    action: &A,
    depth: u32,
) -> Result<Boxed<Formula>, AllocError>
    ensures walked { IfOk result (λ t. formula_tree t ≡ walk_formula (A.puts action.now) depth (formula_tree formula.now)) }
{
    boxed(alloc, walk_formula(alloc, formula.get(), action, depth))
}

#[cycle(walk)]
fn formula_box_under<A: Action>(
    alloc: Global,
    formula: &Boxed<Formula>,
    action: &A,
    depth: u32,
    by: u32,
) -> Result<Boxed<Formula>, AllocError>
    ensures walked { IfOk result (λ t. formula_tree t ≡ walk_formula (A.puts action.now) (depth + by) (formula_tree formula.now)) }
{
    match depth.checked_add(by) {
        Some(inner) => formula_box(alloc, formula, action, inner),
        None => Err(AllocError),
    }
}

/// A formula that stands under `by` more binders, walked.
#[cycle(walk)]
pub fn formula_under<A: Action>(
    alloc: Global,
    formula: &Formula,
    action: &A,
    depth: u32,
    by: u32,
) -> Result<Formula, AllocError>
    ensures walked { IfOk result (λ t. formula_tree t ≡ walk_formula (A.puts action.now) (depth + by) (formula_tree formula.now)) }
{
    match depth.checked_add(by) {
        Some(inner) => walk_formula(alloc, formula, action, inner),
        None => Err(AllocError),
    }
}
