//! Recursive functions, computations and their steps, in which each part binds a variable for those after it.

ghost use Rattle.std.specs.Prelude.{◌≡◌, IfOk, Some, option_map};
ghost use Rattle.htt_syntax.specs.Trees.{s_run};
ghost use Rattle.htt_syntax.specs.Views.{mono_tree, term_tree, ty_tree, step_tree};
ghost use Rattle.htt_syntax.specs.Levels.{fix_tree, comp_tree};
ghost use Rattle.theory_canonical.specs.Skeletons.{sk_arrow, skeleton};
ghost use Rattle.theory_denotation.specs.Denotation.{fix_skeleton};
ghost use Rattle.theory_canonical_decided.specs.Standings.{told_if};
ghost use Rattle.theory_canonical_decided.specs.Decision.{fix_is_canonical, comp_is_canonical, step_is_canonical};
ghost use Rattle.canonical_forms_skeletons.specs.Views.{skeleton_tree};
ghost use Rattle.canonical_forms_decision.specs.Views.{IsArrow, context_tree, heads_tree};

use crate::answers::{and, both_hold, kept_if, tells_c};
use crate::context::{Context, Entry};
use crate::mono::mono_at;
use crate::terms::{neutral, value_at};
use crate::types::{triple_at, ty_at};
use canonical_forms_skeletons::{Skeleton, skeleton_arrow, skeleton_of};
use htt_syntax::{Comp, Fix, Mono, Step, Term, Ty};
use htt_syntax_seq::boxed;
use std::alloc::{AllocError, Global};

/// The arrow from the skeleton of the parameter. It fails for want of memory alone.
#[tactic(auto, using(canonical_forms_skeletons::specs::Levels::skeleton_levels))]
fn arrow_from(alloc: Global, param: &Ty, answer: Skeleton) -> Result<Skeleton, AllocError>
    ensures arrow { IfOk result (λ s. skeleton_tree s ≡ sk_arrow (skeleton (ty_tree param.now)) (skeleton_tree answer)) }
{
    let argument = boxed(alloc, skeleton_of(alloc, param));
    skeleton_arrow(argument, boxed(alloc, Ok(answer)))
}

/// The skeleton of the recursive function. It fails for want of memory alone.
fn skeleton_of_fix(alloc: Global, fix: &Fix) -> Result<Skeleton, AllocError>
    ensures skeleton { IfOk result (λ s. skeleton_tree s ≡ fix_skeleton (fix_tree fix.now)) }
{
    let params = fix.params.as_slice();
    let mut whole = Skeleton::C;
    let mut left = params.len();
    while left > 0 {
        left -= 1;
        whole = arrow_from(alloc, &params[left], whole)?;
    }
    Ok(whole)
}

/// The skeletons of a function's argument and of its answer.
#[tactic(auto, using(canonical_forms_skeletons::specs::Levels::skeleton_levels))]
fn arrow_parts(function: &Skeleton) -> (&Skeleton, &Skeleton)
    requires arrow { IsArrow (skeleton_tree function.now) }
    ensures parts { skeleton_tree function.now ≡ sk_arrow (skeleton_tree result.0.now) (skeleton_tree result.1.now) }
{
    match function {
        Skeleton::Arrow(argument, answer) => (argument.get(), answer.get()),
        Skeleton::O => unreachable!(),
        Skeleton::C => unreachable!(),
        Skeleton::All(_) => unreachable!(),
    }
}

/// The skeleton of the recursive function, if it is canonical.
#[cycle(decide)]
pub(crate) fn fix_told(
    alloc: Global,
    fix: &Fix,
    context: &Context<'_>,
) -> Result<Option<Skeleton>, AllocError>
    ensures told { IfOk result (λ s. option_map skeleton_tree s ≡ told_if
        (fix_is_canonical (heads_tree context.now) (context_tree context.now) (fix_skeleton (fix_tree fix.now)) (fix_tree fix.now))
        (Some (fix_skeleton (fix_tree fix.now)))) }
{
    let whole = skeleton_of_fix(alloc, fix)?;
    let holds = fix_at(alloc, fix, context, &whole)?;
    Ok(kept_if(holds, Some(whole)))
}

/// Whether the recursive function, which has this skeleton, is canonical.
#[cycle(decide)]
fn fix_at(
    alloc: Global,
    fix: &Fix,
    context: &Context<'_>,
    whole: &Skeleton,
) -> Result<bool, AllocError>
    requires whole { skeleton_tree whole.now ≡ fix_skeleton (fix_tree fix.now) }
    ensures decided { IfOk result (λ b. b ≡ fix_is_canonical (heads_tree context.now) (context_tree context.now) (skeleton_tree whole.now) (fix_tree fix.now)) }
{
    let mut inner = (&*context).copy(alloc)?;
    let mut left = whole;
    let mut all = true;
    for param in fix.params.as_slice() {
        let (argument, answer) = arrow_parts(left);
        let this = ty_at(alloc, param, &inner)?;
        all = and(all, this);
        let next = inner.under(alloc, Entry::Term(argument))?;
        inner = next;
        left = answer;
    }
    let under = inner.under(alloc, Entry::Term(whole))?;
    let spec = triple_at(alloc, &fix.triple, &inner)?;
    let body = comp_at(alloc, &fix.body, &under)?;
    Ok(and(all, and(spec, body)))
}

/// Whether the computation is canonical.
#[cycle(decide)]
pub(crate) fn comp_at(alloc: Global, comp: &Comp, context: &Context<'_>) -> Result<bool, AllocError>
    ensures decided { IfOk result (λ b. b ≡ comp_is_canonical (heads_tree context.now) (context_tree context.now) (comp_tree comp.now)) }
{
    let mut inner = (&*context).copy(alloc)?;
    let mut all = true;
    for step in comp.steps.as_slice() {
        let this = step_at(alloc, step, &inner)?;
        all = and(all, this);
        let next = inner.under(alloc, Entry::Value)?;
        inner = next;
    }
    let last = value_at(alloc, &comp.result, &inner)?;
    Ok(and(all, last))
}

/// Whether the step is canonical.
#[cycle(decide)]
#[tactic(auto, using(htt_syntax::specs::Levels::step_levels), unfolding(theory_canonical_decided::specs::Decision::term_is_canonical))]
fn step_at(alloc: Global, step: &Step, context: &Context<'_>) -> Result<bool, AllocError>
    ensures decided { IfOk result (λ b. b ≡ step_is_canonical (heads_tree context.now) (context_tree context.now) (step_tree step.now)) }
{
    match step {
        Step::Run(term, mono) => run_at(alloc, term, mono, context),
        Step::Alloc(mono, value) => both_hold(
            Ok(mono_at(mono, context)),
            value_at(alloc, value, context),
        ),
        Step::Get(mono, place) => both_hold(
            Ok(mono_at(mono, context)),
            value_at(alloc, place, context),
        ),
        Step::Set(mono, place, value) => both_hold(
            Ok(mono_at(mono, context)),
            both_hold(
                value_at(alloc, place, context),
                value_at(alloc, value, context),
            ),
        ),
        Step::Free(mono, place) => both_hold(
            Ok(mono_at(mono, context)),
            value_at(alloc, place, context),
        ),
        Step::If(mono, test, on_true, on_false) => both_hold(
            both_hold(Ok(mono_at(mono, context)), value_at(alloc, test, context)),
            both_hold(
                comp_at(alloc, on_true, context),
                comp_at(alloc, on_false, context),
            ),
        ),
        Step::Claim(_) => Ok(false),
    }
}

/// Whether a run of the term, whose result has this monotype, is canonical.
#[cycle(decide)]
#[tactic(auto, unfolding(theory_canonical_decided::specs::Decision::term_is_canonical))]
fn run_at(
    alloc: Global,
    term: &Term,
    mono: &Option<Mono>,
    context: &Context<'_>,
) -> Result<bool, AllocError>
    ensures decided { IfOk result (λ b. b ≡ step_is_canonical (heads_tree context.now) (context_tree context.now) (s_run (term_tree term.now) (option_map mono_tree mono.now))) }
{
    match mono {
        Some(mono) => both_hold(
            tells_c(neutral(alloc, term, context)),
            Ok(mono_at(mono, context)),
        ),
        None => Ok(false),
    }
}
