//! Terms.

ghost use Rattle.std.specs.Prelude.{ℕ, ◌≡◌, ◌+◌};
ghost use Rattle.htt_syntax.specs.Views.{term_tree};
ghost use Rattle.htt_syntax.specs.Levels.{term_trees};
ghost use Rattle.htt_syntax_walk.specs.Walk.{Puts, walk_term, walk_terms};
ghost use Rattle.theory_saturation.specs.Saturation.{saturated};
ghost use Rattle.htt_syntax_measure.specs.Measures.{term_measure, terms_measure};

use crate::computations::{comp_box, fix_box};
use crate::depths::under;
use crate::mono::measure_mono;
use crate::size::Size;
use crate::sizes::Sizes;
use crate::types::ty_box;
use htt_syntax::Term;
use sqlite_items::Boxed;

/// The size of the term with what is put for its variables; `depth` binders stand around it. One flat
/// `match`: each form of node is one line, so that a missing or wrong one is seen.
#[cycle(measure)]
#[tactic(auto, using(htt_syntax::specs::Levels::term_levels, htt_syntax_walk::specs::WalkLevels::term_walks, crate::proofs::MeasureLevels::term_measures))]
pub fn measure_term<S: Sizes>(term: &Term, sizes: &S, depth: u64) -> Size
    ensures sized { (p : Puts) (d : ℕ) → S.measures sizes.now p → depth ≡ saturated d → result ≡ term_measure (walk_term p d (term_tree term.now)) }
{
    match term {
        Term::Var(index) => sizes.at_term(*index, depth),
        Term::Val(_) => Size::leaf(),
        Term::Def(_) => Size::leaf(),
        Term::Word(_) => Size::leaf(),
        Term::Bool(_) => Size::leaf(),
        Term::Loc(_) => Size::leaf(),
        Term::Unit => Size::leaf(),
        Term::App(function, argument) => Size::node_of_two(
            term_box(function, sizes, depth),
            term_box(argument, sizes, depth),
        ),
        Term::Inst(function, mono) => Size::node_of_two(
            term_box(function, sizes, depth),
            measure_mono(mono, sizes, depth),
        ),
        Term::Lam(body) => term_box_under(body, sizes, depth, 1).under_node(),
        Term::LamT(body) => term_box_under(body, sizes, depth, 1).under_node(),
        Term::Do(comp) => comp_box(comp, sizes, depth).deeper().under_node(),
        Term::Fix(fix) => fix_box(fix, sizes, depth).deeper().under_node(),
        Term::Pair(left, right) => Size::node_of_two(
            term_box(left, sizes, depth),
            term_box(right, sizes, depth),
        ),
        Term::Fst(pair) => term_box(pair, sizes, depth).under_node(),
        Term::Snd(pair) => term_box(pair, sizes, depth).under_node(),
        Term::Un(term) => term_box(term, sizes, depth).under_node(),
        Term::Bin(_, left, right) => Size::node_of_two(
            term_box(left, sizes, depth),
            term_box(right, sizes, depth),
        ),
        Term::Eq(mono, left, right) => Size::node_of_three(
            measure_mono(mono, sizes, depth),
            term_box(left, sizes, depth),
            term_box(right, sizes, depth),
        ),
        Term::Sel(mono, test, on_true, on_false) => Size::node_of_four(
            measure_mono(mono, sizes, depth),
            term_box(test, sizes, depth),
            term_box(on_true, sizes, depth),
            term_box(on_false, sizes, depth),
        ),
        Term::Ann(term, ty) => Size::node_of_two(
            term_box(term, sizes, depth),
            ty_box(ty, sizes, depth),
        ),
        Term::Made(_, values) => measure_terms(values.as_slice(), sizes, depth).under_node(),
        Term::At(_, term) => term_box(term, sizes, depth),
    }
}

/// The size of terms that stand side by side under the same binders.
#[cycle(measure)]
pub(crate) fn measure_terms<S: Sizes>(terms: &[Term], sizes: &S, depth: u64) -> Size
    ensures sized { (p : Puts) (d : ℕ) → S.measures sizes.now p → depth ≡ saturated d → result ≡ terms_measure (walk_terms p d (term_trees terms.now)) }
{
    let mut total = Size::nothing();
    for term in terms {
        total = total.beside(measure_term(term, sizes, depth));
    }
    total
}

#[cycle(measure)]
fn term_box<S: Sizes>(term: &Boxed<Term>, sizes: &S, depth: u64) -> Size
    ensures sized { (p : Puts) (d : ℕ) → S.measures sizes.now p → depth ≡ saturated d → result ≡ term_measure (walk_term p d (term_tree term.now)) }
{
    measure_term(term.get(), sizes, depth)
}

#[cycle(measure)]
fn term_box_under<S: Sizes>(term: &Boxed<Term>, sizes: &S, depth: u64, by: u64) -> Size
    ensures sized { (p : Puts) (d : ℕ) → S.measures sizes.now p → depth ≡ saturated d → result ≡ term_measure (walk_term p (d + by) (term_tree term.now)) }
{
    term_box(term, sizes, under(depth, by))
}
