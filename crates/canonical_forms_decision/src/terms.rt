//! Terms: whether one is canonical at a skeleton, and the skeleton of a head with its arguments.

ghost use Rattle.std.specs.Prelude.{◌≡◌, IfOk, Ok, Some, Option, option_map};
ghost use Rattle.htt_syntax.specs.Trees.{t_lam, t_lam_t};
ghost use Rattle.htt_syntax.specs.Views.{term_tree};
ghost use Rattle.htt_syntax.specs.Levels.{term_trees};
ghost use Rattle.theory_canonical.specs.Skeletons.{sk_o};
ghost use Rattle.theory_canonical_decided.specs.Standings.{of_application};
ghost use Rattle.theory_canonical_decided.specs.Decision.{term_is_canonical, neutral_skeleton, terms_are_canonical};
ghost use Rattle.canonical_forms_skeletons.specs.declared.skeleton.Skeleton.{Skeleton};
ghost use Rattle.canonical_forms_skeletons.specs.Views.{skeleton_tree};
ghost use Rattle.canonical_forms_decision.specs.Views.{context_tree, heads_tree};

use crate::answers::{and, both_hold, instance, is_o, kept_if, tells_o, told_if};
use crate::computations::{comp_at, fix_told};
use crate::context::{Context, Entry};
use crate::folding::{bin_stays, eq_stays, fst_stays, not_stays, sel_stays, snd_stays};
use crate::mono::mono_at;
use canonical_forms_skeletons::Skeleton;
use htt_syntax::Term;
use std::alloc::{AllocError, Global};

/// Whether the term is canonical at the skeleton.
#[cycle(decide)]
#[tactic(auto, using(htt_syntax::specs::Levels::term_levels, canonical_forms_skeletons::specs::Levels::skeleton_levels), unfolding(theory_canonical_decided::specs::Decision::term_is_canonical))]
pub(crate) fn term_at(
    alloc: Global,
    term: &Term,
    context: &Context<'_>,
    at: &Skeleton,
) -> Result<bool, AllocError>
    ensures decided { IfOk result (λ b. b ≡ term_is_canonical (heads_tree context.now) (context_tree context.now) (term_tree term.now) (skeleton_tree at.now)) }
{
    match term {
        Term::Word(_) => Ok(is_o(at)),
        Term::Bool(_) => Ok(is_o(at)),
        Term::Loc(_) => Ok(is_o(at)),
        Term::Unit => Ok(is_o(at)),
        Term::Pair(left, right) => both_hold(
            Ok(is_o(at)),
            both_hold(
                value_at(alloc, left.get(), context),
                value_at(alloc, right.get(), context),
            ),
        ),
        Term::Fst(pair) => both_hold(
            Ok(is_o(at)),
            both_hold(
                value_at(alloc, pair.get(), context),
                Ok(fst_stays(pair.get())),
            ),
        ),
        Term::Snd(pair) => both_hold(
            Ok(is_o(at)),
            both_hold(
                value_at(alloc, pair.get(), context),
                Ok(snd_stays(pair.get())),
            ),
        ),
        Term::Un(term) => both_hold(
            Ok(is_o(at)),
            both_hold(
                value_at(alloc, term.get(), context),
                Ok(not_stays(term.get())),
            ),
        ),
        Term::Bin(op, left, right) => both_hold(
            Ok(is_o(at)),
            both_hold(
                both_hold(
                    value_at(alloc, left.get(), context),
                    value_at(alloc, right.get(), context),
                ),
                Ok(bin_stays(*op, left.get(), right.get())),
            ),
        ),
        Term::Eq(mono, left, right) => both_hold(
            Ok(is_o(at)),
            both_hold(
                both_hold(
                    Ok(mono_at(mono, context)),
                    both_hold(
                        value_at(alloc, left.get(), context),
                        value_at(alloc, right.get(), context),
                    ),
                ),
                Ok(eq_stays(mono, left.get(), right.get())),
            ),
        ),
        Term::Sel(mono, test, on_true, on_false) => both_hold(
            Ok(is_o(at)),
            both_hold(
                both_hold(
                    both_hold(
                        Ok(mono_at(mono, context)),
                        value_at(alloc, test.get(), context),
                    ),
                    both_hold(
                        value_at(alloc, on_true.get(), context),
                        value_at(alloc, on_false.get(), context),
                    ),
                ),
                Ok(sel_stays(mono, test.get(), on_true.get(), on_false.get())),
            ),
        ),
        Term::Lam(body) => function_at(alloc, body.get(), context, at),
        Term::LamT(body) => family_at(alloc, body.get(), context, at),
        Term::Do(comp) => match at {
            Skeleton::C => comp_at(alloc, comp.get(), context),
            Skeleton::O => Ok(false),
            Skeleton::Arrow(_, _) => Ok(false),
            Skeleton::All(_) => Ok(false),
        },
        Term::Var(_) => both_hold(Ok(is_o(at)), tells_o(neutral(alloc, term, context))),
        Term::Val(_) => both_hold(Ok(is_o(at)), tells_o(neutral(alloc, term, context))),
        Term::App(_, _) => both_hold(Ok(is_o(at)), tells_o(neutral(alloc, term, context))),
        Term::Inst(_, _) => both_hold(Ok(is_o(at)), tells_o(neutral(alloc, term, context))),
        Term::Made(_, _) => both_hold(Ok(is_o(at)), tells_o(neutral(alloc, term, context))),
        Term::Def(_) => Ok(false),
        Term::Fix(_) => Ok(false),
        Term::Ann(_, _) => Ok(false),
        Term::At(_, _) => Ok(false),
    }
}

/// Whether a function with this body is canonical at the skeleton.
#[cycle(decide)]
#[tactic(auto, using(canonical_forms_skeletons::specs::Levels::skeleton_levels), unfolding(theory_canonical_decided::specs::Decision::term_is_canonical))]
fn function_at(
    alloc: Global,
    body: &Term,
    context: &Context<'_>,
    at: &Skeleton,
) -> Result<bool, AllocError>
    ensures decided { IfOk result (λ b. b ≡ term_is_canonical (heads_tree context.now) (context_tree context.now) (t_lam (term_tree body.now)) (skeleton_tree at.now)) }
{
    match at {
        Skeleton::Arrow(argument, answer) => {
            let inner = (&*context).under(alloc, Entry::Term(argument.get()))?;
            term_at(alloc, body, &inner, answer.get())
        }
        Skeleton::O => Ok(false),
        Skeleton::C => Ok(false),
        Skeleton::All(_) => Ok(false),
    }
}

/// Whether a function of a monotype with this body is canonical at the skeleton.
#[cycle(decide)]
#[tactic(auto, using(canonical_forms_skeletons::specs::Levels::skeleton_levels), unfolding(theory_canonical_decided::specs::Decision::term_is_canonical))]
fn family_at(
    alloc: Global,
    body: &Term,
    context: &Context<'_>,
    at: &Skeleton,
) -> Result<bool, AllocError>
    ensures decided { IfOk result (λ b. b ≡ term_is_canonical (heads_tree context.now) (context_tree context.now) (t_lam_t (term_tree body.now)) (skeleton_tree at.now)) }
{
    match at {
        Skeleton::All(skeleton) => {
            let inner = (&*context).under(alloc, Entry::Mono)?;
            term_at(alloc, body, &inner, skeleton.get())
        }
        Skeleton::O => Ok(false),
        Skeleton::C => Ok(false),
        Skeleton::Arrow(_, _) => Ok(false),
    }
}

/// Whether the term is canonical at the skeleton of a monotype.
#[cycle(decide)]
#[tactic(auto, using(canonical_forms_skeletons::specs::Levels::skeleton_levels))]
pub(crate) fn value_at(
    alloc: Global,
    term: &Term,
    context: &Context<'_>,
) -> Result<bool, AllocError>
    ensures decided { IfOk result (λ b. b ≡ term_is_canonical (heads_tree context.now) (context_tree context.now) (term_tree term.now) sk_o) }
{
    term_at(alloc, term, context, &Skeleton::O)
}

/// The skeleton of the term, if it is a head with its arguments.
#[cycle(decide)]
#[tactic(auto, using(htt_syntax::specs::Levels::term_levels, crate::proofs::Entries::made_by_none), unfolding(theory_canonical_decided::specs::Decision::term_is_canonical))]
pub(crate) fn neutral(
    alloc: Global,
    term: &Term,
    context: &Context<'_>,
) -> Result<Option<Skeleton>, AllocError>
    ensures told { IfOk result (λ s. option_map skeleton_tree s ≡ neutral_skeleton (heads_tree context.now) (context_tree context.now) (term_tree term.now)) }
{
    match term {
        Term::Var(index) => context.skeleton(alloc, *index),
        Term::Val(number) => context.val(alloc, *number),
        Term::App(function, argument) => application(
            alloc,
            argument.get(),
            context,
            neutral(alloc, function.get(), context),
        ),
        Term::Inst(function, mono) => told_if(
            Ok(mono_at(mono, context)),
            instance(neutral(alloc, function.get(), context)),
        ),
        Term::Fix(fix) => fix_told(alloc, fix.get(), context),
        Term::Made(_, _) => Ok(None),
        Term::Word(_) => Ok(None),
        Term::Bool(_) => Ok(None),
        Term::Loc(_) => Ok(None),
        Term::Unit => Ok(None),
        Term::Pair(_, _) => Ok(None),
        Term::Fst(_) => Ok(None),
        Term::Snd(_) => Ok(None),
        Term::Un(_) => Ok(None),
        Term::Bin(_, _, _) => Ok(None),
        Term::Eq(_, _, _) => Ok(None),
        Term::Sel(_, _, _, _) => Ok(None),
        Term::Lam(_) => Ok(None),
        Term::LamT(_) => Ok(None),
        Term::Do(_) => Ok(None),
        Term::Def(_) => Ok(None),
        Term::Ann(_, _) => Ok(None),
        Term::At(_, _) => Ok(None),
    }
}

/// The skeleton of a function, if it is told, applied to the argument.
#[cycle(decide)]
fn application(
    alloc: Global,
    argument: &Term,
    context: &Context<'_>,
    function: Result<Option<Skeleton>, AllocError>,
) -> Result<Option<Skeleton>, AllocError>
    ensures told { IfOk result (λ r. (s : Option Skeleton) × (function ≡ Ok s)
        × (option_map skeleton_tree r ≡ of_application (option_map skeleton_tree s)
        (term_is_canonical (heads_tree context.now) (context_tree context.now) (term_tree argument.now)))) }
{
    match function? {
        Some(function) => applied(alloc, argument, context, function),
        None => Ok(None),
    }
}

/// The skeleton of a function with this skeleton, applied to the argument, if it may be.
#[cycle(decide)]
#[tactic(auto, using(canonical_forms_skeletons::specs::Levels::skeleton_levels))]
fn applied(
    alloc: Global,
    argument: &Term,
    context: &Context<'_>,
    function: Skeleton,
) -> Result<Option<Skeleton>, AllocError>
    ensures told { IfOk result (λ r. option_map skeleton_tree r ≡ of_application (Some (skeleton_tree function))
        (term_is_canonical (heads_tree context.now) (context_tree context.now) (term_tree argument.now))) }
{
    match function {
        Skeleton::Arrow(from, to) => {
            let fits = term_at(alloc, argument, context, from.get())?;
            Ok(kept_if(fits, Some(to.into_inner())))
        }
        Skeleton::O => Ok(None),
        Skeleton::C => Ok(None),
        Skeleton::All(_) => Ok(None),
    }
}

/// Whether the terms are canonical at the skeleton of a monotype.
#[cycle(decide)]
pub(crate) fn values_at(
    alloc: Global,
    terms: &[Term],
    context: &Context<'_>,
) -> Result<bool, AllocError>
    ensures decided { IfOk result (λ b. b ≡ terms_are_canonical (heads_tree context.now) (context_tree context.now) (term_trees terms.now)) }
{
    let mut all = true;
    for term in terms {
        let this = value_at(alloc, term, context)?;
        all = and(all, this);
    }
    Ok(all)
}
