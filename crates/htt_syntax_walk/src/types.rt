//! Types and triples.

ghost use Rattle.std.specs.Prelude.{◌≡◌, ◌+◌, IfOk};
ghost use Rattle.htt_syntax.specs.Views.{ty_tree};
ghost use Rattle.htt_syntax.specs.Levels.{triple_tree};
ghost use Rattle.htt_syntax_walk.specs.Walk.{walk_ty, walk_triple};

use crate::action::Action;
use crate::formulas::formula_under;
use crate::mono::walk_mono;
use htt_syntax::{Triple, Ty};
use htt_syntax_seq::boxed;
use sqlite_items::Boxed;
use std::alloc::{AllocError, Global};

/// The type with what the action puts for its variables; `depth` binders stand around it.
#[cycle(walk)]
#[tactic(auto, using(htt_syntax::specs::Levels::ty_levels, crate::specs::WalkLevels::ty_walks))]
pub fn walk_ty<A: Action>(alloc: Global, ty: &Ty, action: &A, depth: u32) -> Result<Ty, AllocError>
    ensures walked { IfOk result (λ t. ty_tree t ≡ walk_ty (A.puts action.now) depth (ty_tree ty.now)) }
{
    match ty {
        Ty::Mono(mono) => htt_syntax_build::ty_mono(walk_mono(alloc, mono, action, depth)),
        Ty::Fun(argument, answer) => htt_syntax_build::ty_fun(
            ty_box(alloc, argument, action, depth),
            ty_box_under(alloc, answer, action, depth, 1),
        ),
        Ty::All(body) => htt_syntax_build::ty_all(ty_box_under(alloc, body, action, depth, 1)),
        Ty::Hoare(triple) => triple_box(alloc, triple, action, depth).map(|triple| Ty::Hoare(
            triple,
        )),
        Ty::At(at, ty) => htt_syntax_build::ty_at(*at, ty_box(alloc, ty, action, depth)),
    }
}

/// The triple with what the action puts for its variables; `depth` binders stand around it.
#[cycle(walk)]
#[tactic(auto, using(crate::specs::WalkLevels::triple_walks), unfolding(htt_syntax::specs::Levels::triple_tree))]
pub fn walk_triple<A: Action>(
    alloc: Global,
    triple: &Triple,
    action: &A,
    depth: u32,
) -> Result<Triple, AllocError>
    ensures walked { IfOk result (λ t. triple_tree t ≡ walk_triple (A.puts action.now) depth (triple_tree triple.now)) }
{
    htt_syntax_build::triple(
        formula_under(alloc, &triple.pre, action, depth, 1),
        walk_mono(alloc, &triple.result, action, depth),
        formula_under(alloc, &triple.post, action, depth, 3),
    )
}

/// A type in a box, walked.
#[cycle(walk)]
pub fn ty_box<A: Action>(
    alloc: Global,
    ty: &Boxed<Ty>,
    action: &A,
    depth: u32,
) -> Result<Boxed<Ty>, AllocError>
    ensures walked { IfOk result (λ t. ty_tree t ≡ walk_ty (A.puts action.now) depth (ty_tree ty.now)) }
{
    boxed(alloc, walk_ty(alloc, ty.get(), action, depth))
}

#[cycle(walk)]
fn ty_box_under<A: Action>(
    alloc: Global,
    ty: &Boxed<Ty>,
    action: &A,
    depth: u32,
    by: u32,
) -> Result<Boxed<Ty>, AllocError>
    ensures walked { IfOk result (λ t. ty_tree t ≡ walk_ty (A.puts action.now) (depth + by) (ty_tree ty.now)) }
{
    match depth.checked_add(by) {
        Some(inner) => ty_box(alloc, ty, action, inner),
        None => Err(AllocError),
    }
}

#[cycle(walk)]
fn triple_box<A: Action>(
    alloc: Global,
    triple: &Boxed<Triple>,
    action: &A,
    depth: u32,
) -> Result<Boxed<Triple>, AllocError>
    ensures walked { IfOk result (λ t. triple_tree t ≡ walk_triple (A.puts action.now) depth (triple_tree triple.now)) }
{
    boxed(alloc, walk_triple(alloc, triple.get(), action, depth))
}
