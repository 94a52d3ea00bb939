//! The roots of monotypes and types.

ghost use Rattle.std.specs.Prelude.{◌≡◌};
ghost use Rattle.htt_syntax.specs.Views.{mono_tree, ty_tree};
ghost use Rattle.shared_terms_rows.specs.Parts.{of_mono, of_ty};
ghost use Rattle.theory_rows_inversion.specs.Inversion.{form_at};
ghost use Rattle.shared_terms_adding.specs.Roots.{root_of};
ghost use Rattle.shared_terms_adding.specs.Views.{part_in};

use crate::tree::Tree;
use htt_syntax::{Mono, Ty};
use shared_terms_rows::{Form, MonoForm, TyForm};

#[tactic(auto, using(htt_syntax::specs::Levels::mono_levels), unfolding(theory_rows_inversion::specs::Inversion::form_at))]
pub(crate) fn form_of_mono(mono: &Mono) -> Form
    ensures form { result ≡ form_at (of_mono (mono_tree mono.now)) }
{
    match mono {
        Mono::Word => Form::Mono(MonoForm::Word),
        Mono::Bool => Form::Mono(MonoForm::Bool),
        Mono::Loc => Form::Mono(MonoForm::Loc),
        Mono::Unit => Form::Mono(MonoForm::Unit),
        Mono::Pair(_, _) => Form::Mono(MonoForm::Pair),
        Mono::Var(index) => Form::Mono(MonoForm::Var(*index)),
    }
}

#[tactic(auto, using(htt_syntax::specs::Levels::mono_levels), unfolding(crate::specs::Roots::root_of, theory_rows_inversion::specs::Inversion::form_at, theory_rows_inversion::specs::Inversion::parts_at, shared_terms_rows::specs::Forms::slots, shared_terms_rows::specs::Forms::mono_slots))]
pub(crate) fn first_of_mono(mono: &Mono) -> Option<Tree<'_>>
    ensures first { part_in result ≡ (root_of (of_mono (mono_tree mono.now))).first }
{
    match mono {
        Mono::Pair(left, _) => Some(Tree::Mono(left.get())),
        Mono::Word | Mono::Bool | Mono::Loc | Mono::Unit | Mono::Var(_) => None,
    }
}

#[tactic(auto, using(htt_syntax::specs::Levels::mono_levels), unfolding(crate::specs::Roots::root_of, theory_rows_inversion::specs::Inversion::form_at, theory_rows_inversion::specs::Inversion::parts_at, shared_terms_rows::specs::Forms::slots, shared_terms_rows::specs::Forms::mono_slots))]
pub(crate) fn second_of_mono(mono: &Mono) -> Option<Tree<'_>>
    ensures second { part_in result ≡ (root_of (of_mono (mono_tree mono.now))).second }
{
    match mono {
        Mono::Pair(_, right) => Some(Tree::Mono(right.get())),
        Mono::Word | Mono::Bool | Mono::Loc | Mono::Unit | Mono::Var(_) => None,
    }
}

#[tactic(auto, using(htt_syntax::specs::Levels::ty_levels), unfolding(theory_rows_inversion::specs::Inversion::form_at))]
pub(crate) fn form_of_ty(ty: &Ty) -> Form
    ensures form { result ≡ form_at (of_ty (ty_tree ty.now)) }
{
    match ty {
        Ty::Mono(_) => Form::Ty(TyForm::Mono),
        Ty::Fun(_, _) => Form::Ty(TyForm::Fun),
        Ty::All(_) => Form::Ty(TyForm::All),
        Ty::Hoare(_) => Form::Ty(TyForm::Hoare),
        Ty::At(at, _) => Form::Ty(TyForm::At(*at)),
    }
}

#[tactic(auto, using(htt_syntax::specs::Levels::ty_levels), unfolding(crate::specs::Roots::root_of, theory_rows_inversion::specs::Inversion::form_at, theory_rows_inversion::specs::Inversion::parts_at, shared_terms_rows::specs::Forms::slots, shared_terms_rows::specs::Forms::ty_slots))]
pub(crate) fn first_of_ty(ty: &Ty) -> Option<Tree<'_>>
    ensures first { part_in result ≡ (root_of (of_ty (ty_tree ty.now))).first }
{
    match ty {
        Ty::Mono(mono) => Some(Tree::Mono(mono)),
        Ty::Fun(argument, _) => Some(Tree::Ty(argument.get())),
        Ty::All(body) => Some(Tree::Ty(body.get())),
        Ty::Hoare(triple) => Some(Tree::Triple(triple)),
        Ty::At(_, ty) => Some(Tree::Ty(ty.get())),
    }
}

#[tactic(auto, using(htt_syntax::specs::Levels::ty_levels), unfolding(crate::specs::Roots::root_of, theory_rows_inversion::specs::Inversion::form_at, theory_rows_inversion::specs::Inversion::parts_at, shared_terms_rows::specs::Forms::slots, shared_terms_rows::specs::Forms::ty_slots))]
pub(crate) fn second_of_ty(ty: &Ty) -> Option<Tree<'_>>
    ensures second { part_in result ≡ (root_of (of_ty (ty_tree ty.now))).second }
{
    match ty {
        Ty::Fun(_, answer) => Some(Tree::Ty(answer.get())),
        Ty::Mono(_) | Ty::All(_) | Ty::Hoare(_) | Ty::At(_, _) => None,
    }
}
