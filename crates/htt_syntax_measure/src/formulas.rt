//! Formulas. A heap is an index, and has no size.

ghost use Rattle.std.specs.Prelude.{ℕ, ◌≡◌, ◌+◌};
ghost use Rattle.htt_syntax.specs.Views.{formula_tree};
ghost use Rattle.htt_syntax_walk.specs.Walk.{Puts, walk_formula};
ghost use Rattle.theory_saturation.specs.Saturation.{saturated};
ghost use Rattle.htt_syntax_measure.specs.Measures.{formula_measure};

use crate::depths::under;
use crate::mono::measure_mono;
use crate::size::Size;
use crate::sizes::Sizes;
use crate::terms::{measure_term, measure_terms};
use htt_syntax::Formula;
use sqlite_items::Boxed;

/// The size of the formula with what is put for its variables; `depth` binders stand around it.  One flat `match`: each form of node is one line,
/// so that a missing or wrong one is seen.
#[cycle(measure)]
#[tactic(auto, using(htt_syntax::specs::Levels::formula_levels, htt_syntax_walk::specs::WalkLevels::formula_walks, crate::proofs::MeasureLevels::formula_measures))]
pub fn measure_formula<S: Sizes>(formula: &Formula, sizes: &S, depth: u64) -> Size
    ensures sized { (p : Puts) (d : ℕ) → S.measures sizes.now p → depth ≡ saturated d → result ≡ formula_measure (walk_formula p d (formula_tree formula.now)) }
{
    match formula {
        Formula::Tt => Size::leaf(),
        Formula::Ff => Size::leaf(),
        Formula::Emp(_) => Size::leaf(),
        Formula::Join(_, _, _) => Size::leaf(),
        Formula::Same(_, _) => Size::leaf(),
        Formula::And(left, right) => Size::node_of_two(
            formula_box(left, sizes, depth),
            formula_box(right, sizes, depth),
        ),
        Formula::Or(left, right) => Size::node_of_two(
            formula_box(left, sizes, depth),
            formula_box(right, sizes, depth),
        ),
        Formula::Imp(left, right) => Size::node_of_two(
            formula_box(left, sizes, depth),
            formula_box(right, sizes, depth),
        ),
        Formula::AllT(mono, body) => Size::node_of_two(
            measure_mono(mono, sizes, depth),
            formula_box_under(body, sizes, depth, 1),
        ),
        Formula::ExT(mono, body) => Size::node_of_two(
            measure_mono(mono, sizes, depth),
            formula_box_under(body, sizes, depth, 1),
        ),
        Formula::AllH(body) => formula_box_under(body, sizes, depth, 1).under_node(),
        Formula::ExH(body) => formula_box_under(body, sizes, depth, 1).under_node(),
        Formula::Cell(mono, _, place, value) => Size::node_of_three(
            measure_mono(mono, sizes, depth),
            measure_term(place, sizes, depth),
            measure_term(value, sizes, depth),
        ),
        Formula::Block(mono, _, place) => Size::node_of_two(
            measure_mono(mono, sizes, depth),
            measure_term(place, sizes, depth),
        ),
        Formula::Eq(mono, left, right) => Size::node_of_three(
            measure_mono(mono, sizes, depth),
            measure_term(left, sizes, depth),
            measure_term(right, sizes, depth),
        ),
        Formula::At(_, formula) => formula_box(formula, sizes, depth),
        Formula::Rec(_, _, place, arguments) => Size::node_of_two(
            measure_term(place, sizes, depth),
            measure_terms(arguments.as_slice(), sizes, depth),
        ),
    }
}

#[cycle(measure)]
fn formula_box<S: Sizes>(formula: &Boxed<Formula>, sizes: &S, depth: u64) -> Size
    ensures sized { (p : Puts) (d : ℕ) → S.measures sizes.now p → depth ≡ saturated d → result ≡ formula_measure (walk_formula p d (formula_tree formula.now)) }
{
    measure_formula(formula.get(), sizes, depth)
}

#[cycle(measure)]
fn formula_box_under<S: Sizes>(body: &Boxed<Formula>, sizes: &S, depth: u64, by: u64) -> Size
    ensures sized { (p : Puts) (d : ℕ) → S.measures sizes.now p → depth ≡ saturated d → result ≡ formula_measure (walk_formula p (d + by) (formula_tree body.now)) }
{
    formula_box(body, sizes, under(depth, by))
}

/// The size of a formula that stands under `by` more binders.
#[cycle(measure)]
pub(crate) fn formula_under<S: Sizes>(body: &Formula, sizes: &S, depth: u64, by: u64) -> Size
    ensures sized { (p : Puts) (d : ℕ) → S.measures sizes.now p → depth ≡ saturated d → result ≡ formula_measure (walk_formula p (d + by) (formula_tree body.now)) }
{
    measure_formula(body, sizes, under(depth, by))
}
