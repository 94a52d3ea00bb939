//! Recursive functions, computations and their steps, in which each part binds a variable for those after it. A
//! computation is measured without its own level, and so is a recursive function.

ghost use Rattle.std.specs.Prelude.{ℕ, ◌≡◌, ◌+◌};
ghost use Rattle.htt_syntax.specs.Views.{step_tree};
ghost use Rattle.htt_syntax.specs.Levels.{fix_tree, comp_tree};
ghost use Rattle.htt_syntax_walk.specs.Walk.{Puts, walk_fix, walk_comp, walk_step};
ghost use Rattle.theory_saturation.specs.Saturation.{saturated};
ghost use Rattle.htt_syntax_measure.specs.Measures.{fix_measure, comp_measure, step_measure, AreParams, AreSteps};

use crate::depths::under;
use crate::formulas::formula_under;
use crate::mono::{measure_mono, measure_mono_option};
use crate::size::Size;
use crate::sizes::Sizes;
use crate::terms::measure_term;
use crate::types::{measure_triple, measure_ty};
use htt_syntax::{Comp, Fix, Step, Ty};
use sqlite_items::Boxed;

/// The size of what a recursive function is made of, with what is put for its variables; `depth` binders stand around
/// it.
#[cycle(measure)]
#[tactic(auto, using(htt_syntax_walk::specs::WalkLevels::body_walk, crate::proofs::MeasureLevels::body_measure), unfolding(htt_syntax::specs::Levels::fix_tree))]
fn measure_fix<S: Sizes>(fix: &Fix, sizes: &S, depth: u64) -> Size
    ensures sized { (p : Puts) (d : ℕ) → S.measures sizes.now p → depth ≡ saturated d → result ≡ fix_measure (walk_fix p d (fix_tree fix.now)) }
{
    let inner = under(depth, fix.params.as_slice().len() as u64);
    let body = comp_under(&fix.body, sizes, inner, 1).deeper();
    let under_params = measure_triple(&fix.triple, sizes, inner)
        .beside(body)
        .counted();
    measure_params(fix.params.as_slice(), sizes, depth).beside(under_params)
}

/// The size of what a computation is made of, likewise.
#[cycle(measure)]
#[tactic(auto, unfolding(htt_syntax::specs::Levels::comp_tree))]
pub(crate) fn measure_comp<S: Sizes>(comp: &Comp, sizes: &S, depth: u64) -> Size
    ensures sized { (p : Puts) (d : ℕ) → S.measures sizes.now p → depth ≡ saturated d → result ≡ comp_measure (walk_comp p d (comp_tree comp.now)) }
{
    let inner = under(depth, comp.steps.as_slice().len() as u64);
    let result = measure_term(&comp.result, sizes, inner).counted();
    measure_steps(comp.steps.as_slice(), sizes, depth).beside(result)
}

/// The size of the step, likewise.
#[cycle(measure)]
#[tactic(auto, using(htt_syntax::specs::Levels::step_levels, htt_syntax_walk::specs::WalkLevels::step_walks, crate::proofs::MeasureLevels::step_measures))]
fn measure_step<S: Sizes>(step: &Step, sizes: &S, depth: u64) -> Size
    ensures sized { (p : Puts) (d : ℕ) → S.measures sizes.now p → depth ≡ saturated d → result ≡ step_measure (walk_step p d (step_tree step.now)) }
{
    match step {
        Step::Run(term, mono) => Size::node_of_two(
            measure_term(term, sizes, depth),
            measure_mono_option(mono, sizes, depth),
        ),
        Step::Alloc(mono, value) => Size::node_of_two(
            measure_mono(mono, sizes, depth),
            measure_term(value, sizes, depth),
        ),
        Step::Get(mono, place) => Size::node_of_two(
            measure_mono(mono, sizes, depth),
            measure_term(place, sizes, depth),
        ),
        Step::Set(mono, place, value) => Size::node_of_three(
            measure_mono(mono, sizes, depth),
            measure_term(place, sizes, depth),
            measure_term(value, sizes, depth),
        ),
        Step::Free(mono, place) => Size::node_of_two(
            measure_mono(mono, sizes, depth),
            measure_term(place, sizes, depth),
        ),
        Step::If(mono, test, on_true, on_false) => Size::node_of_four(
            measure_mono(mono, sizes, depth),
            measure_term(test, sizes, depth),
            measure_comp(on_true, sizes, depth).deeper(),
            measure_comp(on_false, sizes, depth).deeper(),
        ),
        Step::Claim(formula) => formula_under(formula, sizes, depth, 2).under_node(),
    }
}

/// The size of parameters, each of which stands under those before it: what it adds to that of what is under all.
#[cycle(measure)]
fn measure_params<S: Sizes>(params: &[Ty], sizes: &S, depth: u64) -> Size
    ensures sized { (p : Puts) (d : ℕ) → S.measures sizes.now p → depth ≡ saturated d → AreParams p d params.now result }
{
    let mut total = Size::nothing();
    let mut inner = depth;
    for param in params {
        total = total.beside(measure_ty(param, sizes, inner));
        inner = under(inner, 1);
    }
    total
}

/// The size of steps, each of which stands under those before it: what it adds to that of the result.
#[cycle(measure)]
fn measure_steps<S: Sizes>(steps: &[Step], sizes: &S, depth: u64) -> Size
    ensures sized { (p : Puts) (d : ℕ) → S.measures sizes.now p → depth ≡ saturated d → AreSteps p d steps.now result }
{
    let mut total = Size::nothing();
    let mut inner = depth;
    for step in steps {
        total = total.beside(measure_step(step, sizes, inner));
        inner = under(inner, 1);
    }
    total
}

#[cycle(measure)]
pub(crate) fn fix_box<S: Sizes>(fix: &Boxed<Fix>, sizes: &S, depth: u64) -> Size
    ensures sized { (p : Puts) (d : ℕ) → S.measures sizes.now p → depth ≡ saturated d → result ≡ fix_measure (walk_fix p d (fix_tree fix.now)) }
{
    measure_fix(fix.get(), sizes, depth)
}

#[cycle(measure)]
pub(crate) fn comp_box<S: Sizes>(comp: &Boxed<Comp>, sizes: &S, depth: u64) -> Size
    ensures sized { (p : Puts) (d : ℕ) → S.measures sizes.now p → depth ≡ saturated d → result ≡ comp_measure (walk_comp p d (comp_tree comp.now)) }
{
    measure_comp(comp.get(), sizes, depth)
}

#[cycle(measure)]
fn comp_under<S: Sizes>(comp: &Comp, sizes: &S, depth: u64, by: u64) -> Size
    ensures sized { (p : Puts) (d : ℕ) → S.measures sizes.now p → depth ≡ saturated d → result ≡ comp_measure (walk_comp p (d + by) (comp_tree comp.now)) }
{
    measure_comp(comp, sizes, under(depth, by))
}
