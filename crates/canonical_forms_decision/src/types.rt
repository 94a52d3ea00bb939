//! Types and triples.

ghost use Rattle.std.specs.Prelude.{◌≡◌, IfOk};
ghost use Rattle.htt_syntax.specs.Views.{ty_tree};
ghost use Rattle.htt_syntax.specs.Levels.{triple_tree};
ghost use Rattle.theory_canonical_decided.specs.Decision.{ty_is_canonical, triple_is_canonical};
ghost use Rattle.canonical_forms_decision.specs.Views.{context_tree, heads_tree};

use crate::answers::both_hold;
use crate::context::{Context, Entry};
use crate::formulas::formula_under;
use crate::mono::mono_at;
use canonical_forms_skeletons::skeleton_of;
use htt_syntax::{Triple, Ty};
use std::alloc::{AllocError, Global};

/// Whether the type is canonical.
#[cycle(decide)]
#[tactic(auto, using(htt_syntax::specs::Levels::ty_levels), unfolding(theory_canonical_decided::specs::Decision::term_is_canonical))]
pub(crate) fn ty_at(alloc: Global, ty: &Ty, context: &Context<'_>) -> Result<bool, AllocError>
    ensures decided { IfOk result (λ b. b ≡ ty_is_canonical (heads_tree context.now) (context_tree context.now) (ty_tree ty.now)) }
{
    match ty {
        Ty::Mono(mono) => Ok(mono_at(mono, context)),
        Ty::Fun(argument, answer) => {
            let skeleton = skeleton_of(alloc, argument.get())?;
            let inner = (&*context).under(alloc, Entry::Term(&skeleton))?;
            both_hold(
                ty_at(alloc, argument.get(), context),
                ty_at(alloc, answer.get(), &inner),
            )
        }
        Ty::All(body) => {
            let inner = (&*context).under(alloc, Entry::Mono)?;
            ty_at(alloc, body.get(), &inner)
        }
        Ty::Hoare(triple) => triple_at(alloc, triple.get(), context),
        Ty::At(_, _) => Ok(false),
    }
}

/// Whether the triple is canonical.
#[cycle(decide)]
#[tactic(auto, unfolding(htt_syntax::specs::Levels::triple_tree, theory_canonical_decided::specs::Decision::term_is_canonical))]
pub(crate) fn triple_at(
    alloc: Global,
    triple: &Triple,
    context: &Context<'_>,
) -> Result<bool, AllocError>
    ensures decided { IfOk result (λ b. b ≡ triple_is_canonical (heads_tree context.now) (context_tree context.now) (triple_tree triple.now)) }
{
    let result = (&*context).under(alloc, Entry::Value)?;
    let init = result.under(alloc, Entry::Heap)?;
    both_hold(
        formula_under(alloc, &triple.pre, context, Entry::Heap),
        both_hold(
            Ok(mono_at(&triple.result, context)),
            formula_under(alloc, &triple.post, &init, Entry::Heap),
        ),
    )
}
