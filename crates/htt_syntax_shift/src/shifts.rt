//! The shift of each kind of tree.

ghost use Rattle.std.specs.Prelude.{◌≡◌, IfOk};
ghost use Rattle.htt_syntax.specs.Views.{mono_tree, ty_tree, term_tree, formula_tree};
ghost use Rattle.htt_syntax.specs.Levels.{comp_tree};
ghost use Rattle.htt_syntax.specs.ProofViews.{proof_tree};
ghost use Rattle.theory_renaming.specs.Renaming.{shifting, rename_mono, rename_ty, rename_term};
ghost use Rattle.theory_renaming.specs.Renaming.{rename_comp, rename_formula, rename_proof};

use crate::past::Past;
use htt_syntax::{Comp, Formula, Mono, Proof, Term, Ty};
use htt_syntax_walk::{walk_comp, walk_formula, walk_mono, walk_proof, walk_term, walk_ty};
use std::alloc::{AllocError, Global};

/// The monotype in which each free variable from `from` on has `by` added. It fails for want of memory, or
/// where an index or a depth would pass 32 bits.
#[tactic(auto, using(crate::proofs::Renaming::mono_shifted))]
pub fn shift_mono(alloc: Global, mono: &Mono, from: u32, by: u32) -> Result<Mono, AllocError>
    ensures shifted { IfOk result (λ t. mono_tree t ≡ rename_mono (shifting from by) (mono_tree mono.now)) }
{
    walk_mono(alloc, mono, &Past { from, by }, 0)
}

/// The type in which each free variable from `from` on has `by` added. It fails for want of memory, or
/// where an index or a depth would pass 32 bits.
#[tactic(auto, using(crate::proofs::Renaming::ty_shifted))]
pub fn shift_ty(alloc: Global, ty: &Ty, from: u32, by: u32) -> Result<Ty, AllocError>
    ensures shifted { IfOk result (λ t. ty_tree t ≡ rename_ty (shifting from by) (ty_tree ty.now)) }
{
    walk_ty(alloc, ty, &Past { from, by }, 0)
}

/// The term in which each free variable from `from` on has `by` added. It fails for want of memory, or
/// where an index or a depth would pass 32 bits.
#[tactic(auto, using(crate::proofs::Renaming::term_shifted))]
pub fn shift_term(alloc: Global, term: &Term, from: u32, by: u32) -> Result<Term, AllocError>
    ensures shifted { IfOk result (λ t. term_tree t ≡ rename_term (shifting from by) (term_tree term.now)) }
{
    walk_term(alloc, term, &Past { from, by }, 0)
}

/// The computation in which each free variable from `from` on has `by` added. It fails for want of memory, or
/// where an index or a depth would pass 32 bits.
#[tactic(auto, using(crate::proofs::Renaming::comp_shifted))]
pub fn shift_comp(alloc: Global, comp: &Comp, from: u32, by: u32) -> Result<Comp, AllocError>
    ensures shifted { IfOk result (λ t. comp_tree t ≡ rename_comp (shifting from by) (comp_tree comp.now)) }
{
    walk_comp(alloc, comp, &Past { from, by }, 0)
}

/// The formula in which each free variable from `from` on has `by` added. It fails for want of memory, or
/// where an index or a depth would pass 32 bits.
#[tactic(auto, using(crate::proofs::Renaming::formula_shifted))]
pub fn shift_formula(
    alloc: Global,
    formula: &Formula,
    from: u32,
    by: u32,
) -> Result<Formula, AllocError>
    ensures shifted { IfOk result (λ t. formula_tree t ≡ rename_formula (shifting from by) (formula_tree formula.now)) }
{
    walk_formula(alloc, formula, &Past { from, by }, 0)
}

/// The proof in which each free variable from `from` on has `by` added. It fails for want of memory, or
/// where an index or a depth would pass 32 bits.
#[tactic(auto, using(crate::proofs::RenamingProofs::proof_shifted))]
pub fn shift_proof(alloc: Global, proof: &Proof, from: u32, by: u32) -> Result<Proof, AllocError>
    ensures shifted { IfOk result (λ t. proof_tree t ≡ rename_proof (shifting from by) (proof_tree proof.now)) }
{
    walk_proof(alloc, proof, &Past { from, by }, 0)
}
