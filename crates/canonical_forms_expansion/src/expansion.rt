//! The expansion, by the form of the type.

ghost use Rattle.std.specs.Prelude.{◌≡◌, IfOk};
ghost use Rattle.htt_syntax.specs.Trees.{t_app, t_do, t_inst, t_var, m_var};
ghost use Rattle.htt_syntax.specs.Views.{mono_tree, term_tree, ty_tree};
ghost use Rattle.theory_canonical.specs.Eta.{eta};
ghost use Rattle.theory_renaming.specs.Renaming.{rename_term, rename_ty, shifting};
ghost use Rattle.theory_canonical_expansion.specs.Forms.{run_of};

use htt_syntax::{Comp, Mono, Step, Term, Ty};
use htt_syntax_build::{term_app, term_inst, term_lam, term_lam_t};
use htt_syntax_seq::{Seq, boxed};
use htt_syntax_shift::{shift_term, shift_ty};
use htt_syntax_walk::copy_mono;
use std::alloc::{AllocError, Global};

/// The eta-expansion of a neutral term at the type. It fails for want of memory, or where an index or a
/// depth would pass 32 bits.
pub fn expand(alloc: Global, term: Term, ty: &Ty) -> Result<Term, AllocError>
    ensures expanded { IfOk result (λ t. term_tree t ≡ eta (term_tree term) (ty_tree ty.now)) }
{
    expand_at(alloc, term, ty)
}

#[cycle(expand)]
#[tactic(auto, using(htt_syntax::specs::Levels::ty_levels, htt_syntax::specs::Levels::term_levels, theory_canonical_expansion::proofs::Forms::eta_forms), unfolding(theory_canonical_expansion::specs::Forms::rungs, htt_syntax::specs::Levels::triple_tree))]
fn expand_at(alloc: Global, term: Term, ty: &Ty) -> Result<Term, AllocError>
    ensures expanded { IfOk result (λ t. term_tree t ≡ eta (term_tree term) (ty_tree ty.now)) }
{
    match ty {
        Ty::Mono(_) => Ok(term),
        Ty::Fun(argument, answer) => {
            let applied = applied(alloc, &term, argument.get())?;
            term_lam(boxed(alloc, expand_at(alloc, applied, answer.get())))
        }
        Ty::All(body) => {
            let instance = instance(alloc, &term)?;
            term_lam_t(boxed(alloc, expand_at(alloc, instance, body.get())))
        }
        Ty::Hoare(triple) => run(alloc, term, &triple.get().result),
        Ty::At(_, ty) => expand_at(alloc, term, ty.get()),
    }
}

/// The term, one entry further, applied to that entry, which is written out.
#[cycle(expand)]
#[tactic(auto, using(htt_syntax::specs::Levels::term_levels, theory_canonical_expansion::proofs::Forms::rungs_kept))]
fn applied(alloc: Global, term: &Term, argument: &Ty) -> Result<Term, AllocError>
    ensures applied { IfOk result (λ t. term_tree t ≡ t_app (rename_term (shifting 0 1) (term_tree term.now))
        (eta (t_var 0) (rename_ty (shifting 0 1) (ty_tree argument.now)))) }
{
    let argument = shift_ty(alloc, argument, 0, 1)?;
    term_app(
        boxed(alloc, shift_term(alloc, term, 0, 1)),
        boxed(alloc, expand_at(alloc, Term::Var(0), &argument)),
    )
}

/// The term, one entry further, at that entry, a monotype.
#[tactic(auto, using(htt_syntax::specs::Levels::term_levels, htt_syntax::specs::Levels::mono_levels))]
fn instance(alloc: Global, term: &Term) -> Result<Term, AllocError>
    ensures instance { IfOk result (λ t. term_tree t ≡ t_inst (rename_term (shifting 0 1) (term_tree term.now)) (m_var 0)) }
{
    term_inst(
        boxed(alloc, shift_term(alloc, term, 0, 1)),
        Ok(Mono::Var(0)),
    )
}

/// The computation that runs the term and answers its result.
#[tactic(auto, using(htt_syntax::specs::Levels::term_levels, htt_syntax::specs::Levels::step_levels, crate::proofs::Forms::one_run), unfolding(htt_syntax::specs::Levels::comp_tree))]
fn run(alloc: Global, term: Term, mono: &Mono) -> Result<Term, AllocError>
    ensures run { IfOk result (λ t. term_tree t ≡ t_do (run_of (term_tree term) (mono_tree mono.now))) }
{
    let mono = copy_mono(alloc, mono)?;
    let mut steps = Vec::new(alloc);
    steps.push(Step::Run(term, Some(mono)))?;
    let comp = boxed(
        alloc,
        Ok(Comp {
            steps: Seq::of(steps),
            result: Term::Var(0),
        }),
    )?;
    Ok(Term::Do(comp))
}
