//! Recursive functions, computations and their steps, in which each part binds a variable for those
//! after it.

ghost use Rattle.std.specs.Prelude.{◌≡◌, ◌+◌, IfOk, map};
ghost use Rattle.htt_syntax.specs.Views.{ty_tree, step_tree};
ghost use Rattle.htt_syntax.specs.Levels.{fix_tree, comp_tree};
ghost use Rattle.htt_syntax_walk.specs.Walk.{walk_ty, walk_fix, walk_comp, walk_step};
ghost use Rattle.htt_syntax_walk.specs.Rising.{rising};

use crate::action::{Action, deeper};
use crate::formulas::formula_under;
use crate::mono::{walk_mono, walk_mono_option};
use crate::terms::walk_term;
use crate::types::{walk_triple, walk_ty};
use htt_syntax::{Comp, Fix, Step, Ty};
use htt_syntax_seq::{Seq, both, boxed};
use sqlite_items::Boxed;
use std::alloc::{AllocError, Global};

/// The recursive function with what the action puts for its variables; `depth` binders stand
/// around it.
#[cycle(walk)]
#[tactic(auto, using(crate::proofs::Chains::fix_walked), unfolding(htt_syntax::specs::Levels::fix_tree))]
pub fn walk_fix<A: Action>(
    alloc: Global,
    fix: &Fix,
    action: &A,
    depth: u32,
) -> Result<Fix, AllocError>
    ensures same_place { IfOk result (λ x. x.at ≡ fix.now.at) }
    ensures walked { IfOk result (λ x. fix_tree x ≡ walk_fix (A.puts action.now) depth (fix_tree fix.now)) }
{
    match deeper(depth, fix.params.as_slice().len()) {
        Some(inner) => htt_syntax_build::fix(
            fix.at,
            walk_params(alloc, fix.params.as_slice(), action, depth),
            walk_triple(alloc, &fix.triple, action, inner),
            comp_under(alloc, &fix.body, action, inner, 1),
        ),
        None => Err(AllocError),
    }
}

/// The computation with what the action puts for its variables; `depth` binders stand around it.
#[cycle(walk)]
#[tactic(auto, using(crate::proofs::Chains::comp_walked), unfolding(htt_syntax::specs::Levels::comp_tree))]
pub fn walk_comp<A: Action>(
    alloc: Global,
    comp: &Comp,
    action: &A,
    depth: u32,
) -> Result<Comp, AllocError>
    ensures walked { IfOk result (λ e. comp_tree e ≡ walk_comp (A.puts action.now) depth (comp_tree comp.now)) }
{
    match deeper(depth, comp.steps.as_slice().len()) {
        Some(inner) => htt_syntax_build::comp(
            walk_steps(alloc, comp.steps.as_slice(), action, depth),
            walk_term(alloc, &comp.result, action, inner),
        ),
        None => Err(AllocError),
    }
}

/// The step with what the action puts for its variables; `depth` binders stand around it.
#[cycle(walk)]
#[tactic(auto, using(htt_syntax::specs::Levels::step_levels, crate::specs::WalkLevels::step_walks))]
pub fn walk_step<A: Action>(
    alloc: Global,
    step: &Step,
    action: &A,
    depth: u32,
) -> Result<Step, AllocError>
    ensures walked { IfOk result (λ t. step_tree t ≡ walk_step (A.puts action.now) depth (step_tree step.now)) }
{
    match step {
        Step::Run(term, mono) => htt_syntax_build::step_run(
            walk_term(alloc, term, action, depth),
            walk_mono_option(alloc, mono, action, depth),
        ),
        Step::Alloc(mono, value) => htt_syntax_build::step_alloc(
            walk_mono(alloc, mono, action, depth),
            walk_term(alloc, value, action, depth),
        ),
        Step::Get(mono, place) => htt_syntax_build::step_get(
            walk_mono(alloc, mono, action, depth),
            walk_term(alloc, place, action, depth),
        ),
        Step::Set(mono, place, value) => htt_syntax_build::step_set(
            walk_mono(alloc, mono, action, depth),
            walk_term(alloc, place, action, depth),
            walk_term(alloc, value, action, depth),
        ),
        Step::Free(mono, place) => htt_syntax_build::step_free(
            walk_mono(alloc, mono, action, depth),
            walk_term(alloc, place, action, depth),
        ),
        Step::If(mono, test, on_true, on_false) => both(
            both(
                walk_mono(alloc, mono, action, depth),
                walk_term(alloc, test, action, depth),
            ),
            both(
                walk_comp(alloc, on_true, action, depth),
                walk_comp(alloc, on_false, action, depth),
            ),
        )
        .map(|((mono, test), (on_true, on_false))| Step::If(mono, test, on_true, on_false)),
        Step::Claim(formula) => htt_syntax_build::step_claim(formula_under(
            alloc, formula, action, depth, 2,
        )),
    }
}

// Each parameter stands under those before it.
#[cycle(walk)]
fn walk_params<A: Action>(
    alloc: Global,
    params: &[Ty],
    action: &A,
    depth: u32,
) -> Result<Seq<Ty>, AllocError>
    ensures walked { IfOk result (λ ts. map ty_tree ts ≡ rising (walk_ty (A.puts action.now)) depth (map ty_tree params.now)) }
{
    let mut walked = Vec::new(alloc);
    let mut inner = depth;
    for param in params {
        walked.push(walk_ty(alloc, param, action, inner)?)?;
        inner = inner.checked_add(1).ok_or(AllocError)?;
    }
    Ok(Seq::of(walked))
}

// Each step stands under those before it.
#[cycle(walk)]
fn walk_steps<A: Action>(
    alloc: Global,
    steps: &[Step],
    action: &A,
    depth: u32,
) -> Result<Seq<Step>, AllocError>
    ensures walked { IfOk result (λ ts. map step_tree ts ≡ rising (walk_step (A.puts action.now)) depth (map step_tree steps.now)) }
{
    let mut walked = Vec::new(alloc);
    let mut inner = depth;
    for step in steps {
        walked.push(walk_step(alloc, step, action, inner)?)?;
        inner = inner.checked_add(1).ok_or(AllocError)?;
    }
    Ok(Seq::of(walked))
}

/// A recursive function in a box, walked.
#[cycle(walk)]
pub fn fix_box<A: Action>(
    alloc: Global,
    fix: &Boxed<Fix>,
    action: &A,
    depth: u32,
) -> Result<Boxed<Fix>, AllocError>
    ensures same_place { IfOk result (λ x. x.at ≡ fix.now.at) }
    ensures walked { IfOk result (λ t. fix_tree t ≡ walk_fix (A.puts action.now) depth (fix_tree fix.now)) }
{
    boxed(alloc, walk_fix(alloc, fix.get(), action, depth))
}

/// A computation in a box, walked.
#[cycle(walk)]
pub fn comp_box<A: Action>(
    alloc: Global,
    comp: &Boxed<Comp>,
    action: &A,
    depth: u32,
) -> Result<Boxed<Comp>, AllocError>
    ensures walked { IfOk result (λ t. comp_tree t ≡ walk_comp (A.puts action.now) depth (comp_tree comp.now)) }
{
    boxed(alloc, walk_comp(alloc, comp.get(), action, depth))
}

#[cycle(walk)]
fn comp_under<A: Action>(
    alloc: Global,
    comp: &Comp,
    action: &A,
    depth: u32,
    by: u32,
) -> Result<Comp, AllocError>
    ensures walked { IfOk result (λ t. comp_tree t ≡ walk_comp (A.puts action.now) (depth + by) (comp_tree comp.now)) }
{
    match depth.checked_add(by) {
        Some(inner) => walk_comp(alloc, comp, action, inner),
        None => Err(AllocError),
    }
}
