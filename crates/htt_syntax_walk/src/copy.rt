//! Copies of trees: the walk that puts each variable for itself.

ghost use Rattle.std.specs.Prelude.{◌≡◌, IfOk};
ghost use Rattle.htt_syntax.specs.Views.{mono_tree, ty_tree, term_tree, formula_tree};
ghost use Rattle.htt_syntax.specs.Levels.{comp_tree};
ghost use Rattle.htt_syntax_walk.specs.Kept.{kept};

use crate::action::Action;
use crate::computations::walk_comp;
use crate::formulas::walk_formula;
use crate::mono::walk_mono;
use crate::terms::walk_term;
use crate::types::walk_ty;
use htt_syntax::{Comp, Formula, Mono, Term, Ty};
use std::alloc::{AllocError, Global};

/// The action that puts each variable for itself.
pub struct Keep {}

impl Action for Keep {
    ghost puts = { λ keep. kept };

    #[tactic(auto, using(htt_syntax::specs::Levels::term_levels))]
    fn at_term(&self, alloc: Global, index: u32, depth: u32) -> Result<Term, AllocError> {
        Ok(Term::Var(index))
    }

    #[tactic(auto, using(htt_syntax::specs::Levels::mono_levels))]
    fn at_mono(&self, alloc: Global, index: u32, depth: u32) -> Result<Mono, AllocError> {
        Ok(Mono::Var(index))
    }

    fn at_heap(&self, index: u32, depth: u32) -> Result<u32, AllocError> {
        Ok(index)
    }
}

/// A tree equal to `mono`.
#[tactic(auto, using(crate::proofs::Keeping::mono_kept))]
pub fn copy_mono(alloc: Global, mono: &Mono) -> Result<Mono, AllocError>
    ensures same_tree { IfOk result (λ t. mono_tree t ≡ mono_tree mono.now) }
{
    walk_mono(alloc, mono, &Keep {}, 0)
}

/// A tree equal to `ty`.
#[tactic(auto, using(crate::proofs::Keeping::ty_kept))]
pub fn copy_ty(alloc: Global, ty: &Ty) -> Result<Ty, AllocError>
    ensures same_tree { IfOk result (λ t. ty_tree t ≡ ty_tree ty.now) }
{
    walk_ty(alloc, ty, &Keep {}, 0)
}

/// A tree equal to `term`.
#[tactic(auto, using(crate::proofs::Keeping::term_kept))]
pub fn copy_term(alloc: Global, term: &Term) -> Result<Term, AllocError>
    ensures same_tree { IfOk result (λ t. term_tree t ≡ term_tree term.now) }
{
    walk_term(alloc, term, &Keep {}, 0)
}

/// A tree equal to `comp`.
#[tactic(auto, using(crate::proofs::Keeping::comp_kept))]
pub fn copy_comp(alloc: Global, comp: &Comp) -> Result<Comp, AllocError>
    ensures same_tree { IfOk result (λ t. comp_tree t ≡ comp_tree comp.now) }
{
    walk_comp(alloc, comp, &Keep {}, 0)
}

/// A tree equal to `formula`.
#[tactic(auto, using(crate::proofs::Keeping::formula_kept))]
pub fn copy_formula(alloc: Global, formula: &Formula) -> Result<Formula, AllocError>
    ensures same_tree { IfOk result (λ t. formula_tree t ≡ formula_tree formula.now) }
{
    walk_formula(alloc, formula, &Keep {}, 0)
}
