//! The sizes of trees as they are.

ghost use Rattle.std.specs.Prelude.{◌≡◌};
ghost use Rattle.htt_syntax.specs.Views.{mono_tree, ty_tree, term_tree, formula_tree};
ghost use Rattle.htt_syntax.specs.Levels.{comp_tree};
ghost use Rattle.htt_syntax_walk.specs.Kept.{kept};
ghost use Rattle.htt_syntax_measure.specs.Measures.{mono_measure, ty_measure, term_measure, comp_measure, deeper, formula_measure};

use crate::computations::measure_comp;
use crate::formulas::measure_formula;
use crate::mono::measure_mono;
use crate::size::Size;
use crate::sizes::Sizes;
use crate::terms::measure_term;
use crate::types::measure_ty;
use htt_syntax::{Comp, Formula, Mono, Term, Ty};

/// Each variable stands for itself.
struct Own {}

impl Sizes for Own {
    ghost measures = { λ own p. p ≡ kept };

    #[tactic(auto, using(crate::proofs::Itself::term_own))]
    fn at_term(&self, index: u32, depth: u64) -> Size {
        Size::leaf()
    }

    #[tactic(auto, using(crate::proofs::Itself::mono_own))]
    fn at_mono(&self, index: u32, depth: u64) -> Size {
        Size::leaf()
    }
}

/// The size of the monotype.
pub fn size_of_mono(mono: &Mono) -> Size
    ensures sized { result ≡ mono_measure (mono_tree mono.now) }
{
    measure_mono(mono, &Own {}, 0)
}

/// The size of the type.
pub fn size_of_ty(ty: &Ty) -> Size
    ensures sized { result ≡ ty_measure (ty_tree ty.now) }
{
    measure_ty(ty, &Own {}, 0)
}

/// The size of the term.
pub fn size_of_term(term: &Term) -> Size
    ensures sized { result ≡ term_measure (term_tree term.now) }
{
    measure_term(term, &Own {}, 0)
}

/// The size of the formula.
pub fn size_of_formula(formula: &Formula) -> Size
    ensures sized { result ≡ formula_measure (formula_tree formula.now) }
{
    measure_formula(formula, &Own {}, 0)
}

/// The size of the computation, whose own node is one.
pub fn size_of_comp(comp: &Comp) -> Size
    ensures sized { result ≡ deeper (comp_measure (comp_tree comp.now)) }
{
    measure_comp(comp, &Own {}, 0).deeper()
}
