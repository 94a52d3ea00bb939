//! The skeleton of a type; copies of skeletons, and whether two are the same.

ghost use Rattle.std.specs.Prelude.{◌≡◌, ◌↔◌, IfOk, IsTrue};
ghost use Rattle.htt_syntax.specs.Views.{ty_tree};
ghost use Rattle.theory_canonical.specs.Skeletons.{skeleton};
ghost use Rattle.canonical_forms_skeletons.specs.Views.{skeleton_tree};
ghost use Rattle.canonical_forms_skeletons.specs.Same.{same_skeletons};

use crate::skeleton::{Skeleton, skeleton_all, skeleton_arrow};
use htt_syntax::Ty;
use htt_syntax_seq::boxed;
use sqlite_items::Boxed;
use std::alloc::{AllocError, Global};

/// The skeleton of the type. It fails for want of memory alone.
#[cycle(skeleton_of)]
#[tactic(auto, using(htt_syntax::specs::Levels::ty_levels, crate::specs::Levels::skeleton_levels), unfolding(theory_canonical::specs::Skeletons::skeleton))]
pub fn skeleton_of(alloc: Global, ty: &Ty) -> Result<Skeleton, AllocError>
    ensures skeleton { IfOk result (λ s. skeleton_tree s ≡ skeleton (ty_tree ty.now)) }
{
    match ty {
        Ty::Mono(_) => Ok(Skeleton::O),
        Ty::Fun(argument, answer) => skeleton_arrow(
            skeleton_box(alloc, argument),
            skeleton_box(alloc, answer),
        ),
        Ty::All(body) => skeleton_all(skeleton_box(alloc, body)),
        Ty::Hoare(_) => Ok(Skeleton::C),
        Ty::At(_, ty) => skeleton_of(alloc, ty.get()),
    }
}

#[cycle(skeleton_of)]
fn skeleton_box(alloc: Global, ty: &Boxed<Ty>) -> Result<Boxed<Skeleton>, AllocError>
    ensures skeleton { IfOk result (λ s. skeleton_tree s ≡ skeleton (ty_tree ty.now)) }
{
    boxed(alloc, skeleton_of(alloc, ty.get()))
}

/// A skeleton equal to this one. It fails for want of memory alone.
#[cycle(copy)]
#[tactic(auto, using(crate::specs::Levels::skeleton_levels))]
pub fn copy_skeleton(alloc: Global, skeleton: &Skeleton) -> Result<Skeleton, AllocError>
    ensures same_tree { IfOk result (λ s. skeleton_tree s ≡ skeleton_tree skeleton.now) }
{
    match skeleton {
        Skeleton::O => Ok(Skeleton::O),
        Skeleton::C => Ok(Skeleton::C),
        Skeleton::Arrow(argument, answer) => skeleton_arrow(
            copy_box(alloc, argument),
            copy_box(alloc, answer),
        ),
        Skeleton::All(body) => skeleton_all(copy_box(alloc, body)),
    }
}

#[cycle(copy)]
fn copy_box(alloc: Global, skeleton: &Boxed<Skeleton>) -> Result<Boxed<Skeleton>, AllocError>
    ensures same_tree { IfOk result (λ s. skeleton_tree s ≡ skeleton_tree skeleton.now) }
{
    boxed(alloc, copy_skeleton(alloc, skeleton.get()))
}

/// Whether the two skeletons are the same. It takes no memory.
pub fn same_skeletons(one: &Skeleton, other: &Skeleton) -> bool
    ensures same { IsTrue result ↔ (skeleton_tree one.now ≡ skeleton_tree other.now) }
{
    compare(one, other)
}

#[tactic(auto, using(crate::specs::Levels::skeleton_levels), unfolding(crate::specs::Same::same_skeletons))]
fn compare(one: &Skeleton, other: &Skeleton) -> bool
    ensures compared { result ≡ same_skeletons (skeleton_tree one.now) (skeleton_tree other.now) }
{
    match one {
        Skeleton::O => match other {
            Skeleton::O => true,
            Skeleton::C | Skeleton::Arrow(_, _) | Skeleton::All(_) => false,
        },
        Skeleton::C => match other {
            Skeleton::C => true,
            Skeleton::O | Skeleton::Arrow(_, _) | Skeleton::All(_) => false,
        },
        Skeleton::Arrow(argument, answer) => match other {
            Skeleton::Arrow(other_argument, other_answer) => {
                compare(argument.get(), other_argument.get())
                    && compare(answer.get(), other_answer.get())
            }
            Skeleton::O | Skeleton::C | Skeleton::All(_) => false,
        },
        Skeleton::All(body) => match other {
            Skeleton::All(other_body) => compare(body.get(), other_body.get()),
            Skeleton::O | Skeleton::C | Skeleton::Arrow(_, _) => false,
        },
    }
}
