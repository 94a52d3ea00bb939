//! Types and triples.

ghost use Rattle.std.specs.Prelude.{ℕ, ◌≡◌, ◌+◌};
ghost use Rattle.htt_syntax.specs.Views.{ty_tree};
ghost use Rattle.htt_syntax.specs.Levels.{triple_tree};
ghost use Rattle.htt_syntax_walk.specs.Walk.{Puts, walk_ty, walk_triple};
ghost use Rattle.theory_saturation.specs.Saturation.{saturated};
ghost use Rattle.htt_syntax_measure.specs.Measures.{ty_measure, triple_measure};

use crate::depths::under;
use crate::formulas::formula_under;
use crate::mono::measure_mono;
use crate::size::Size;
use crate::sizes::Sizes;
use htt_syntax::{Triple, Ty};
use sqlite_items::Boxed;

/// The size of the type with what is put for its variables; `depth` binders stand around it.
#[cycle(measure)]
#[tactic(auto, using(htt_syntax::specs::Levels::ty_levels, htt_syntax_walk::specs::WalkLevels::ty_walks, crate::proofs::MeasureLevels::ty_measures))]
pub fn measure_ty<S: Sizes>(ty: &Ty, sizes: &S, depth: u64) -> Size
    ensures sized { (p : Puts) (d : ℕ) → S.measures sizes.now p → depth ≡ saturated d → result ≡ ty_measure (walk_ty p d (ty_tree ty.now)) }
{
    match ty {
        Ty::Mono(mono) => measure_mono(mono, sizes, depth).under_node(),
        Ty::Fun(argument, answer) => Size::node_of_two(
            ty_box(argument, sizes, depth),
            ty_box_under(answer, sizes, depth, 1),
        ),
        Ty::All(body) => ty_box_under(body, sizes, depth, 1).under_node(),
        Ty::Hoare(triple) => triple_box(triple, sizes, depth).under_node(),
        Ty::At(_, ty) => ty_box(ty, sizes, depth),
    }
}

/// The size of the triple, likewise.
#[cycle(measure)]
#[tactic(auto, using(htt_syntax_walk::specs::WalkLevels::triple_walks, crate::proofs::MeasureLevels::triple_of_measure), unfolding(htt_syntax::specs::Levels::triple_tree))]
pub(crate) fn measure_triple<S: Sizes>(triple: &Triple, sizes: &S, depth: u64) -> Size
    ensures sized { (p : Puts) (d : ℕ) → S.measures sizes.now p → depth ≡ saturated d → result ≡ triple_measure (walk_triple p d (triple_tree triple.now)) }
{
    Size::node_of_three(
        formula_under(&triple.pre, sizes, depth, 1),
        measure_mono(&triple.result, sizes, depth),
        formula_under(&triple.post, sizes, depth, 3),
    )
}

/// The size of a type in a box.
#[cycle(measure)]
pub(crate) fn ty_box<S: Sizes>(ty: &Boxed<Ty>, sizes: &S, depth: u64) -> Size
    ensures sized { (p : Puts) (d : ℕ) → S.measures sizes.now p → depth ≡ saturated d → result ≡ ty_measure (walk_ty p d (ty_tree ty.now)) }
{
    measure_ty(ty.get(), sizes, depth)
}

#[cycle(measure)]
fn ty_box_under<S: Sizes>(ty: &Boxed<Ty>, sizes: &S, depth: u64, by: u64) -> Size
    ensures sized { (p : Puts) (d : ℕ) → S.measures sizes.now p → depth ≡ saturated d → result ≡ ty_measure (walk_ty p (d + by) (ty_tree ty.now)) }
{
    ty_box(ty, sizes, under(depth, by))
}

#[cycle(measure)]
fn triple_box<S: Sizes>(triple: &Boxed<Triple>, sizes: &S, depth: u64) -> Size
    ensures sized { (p : Puts) (d : ℕ) → S.measures sizes.now p → depth ≡ saturated d → result ≡ triple_measure (walk_triple p d (triple_tree triple.now)) }
{
    measure_triple(triple.get(), sizes, depth)
}
