//! A copy of each form of node, with memory enough. What the copy is, the contracts say.

use htt_syntax::{Comp, Fix, Formula, Mono, Op, Step, Term, Triple, Ty};
use htt_syntax_seq::{Seq, boxed};
use htt_syntax_walk::{copy_comp, copy_formula, copy_mono, copy_term, copy_ty};
use sqlite_items::Boxed;
use std::alloc::{AllocError, Global};
use std::test::Fail;

fn leaf(alloc: Global) -> Result<Boxed<Term>, AllocError> {
    boxed(alloc, Ok(Term::Var(0)))
}

fn truth(alloc: Global) -> Result<Boxed<Formula>, AllocError> {
    boxed(alloc, Ok(Formula::Tt))
}

fn word(alloc: Global) -> Result<Boxed<Ty>, AllocError> {
    boxed(alloc, Ok(Ty::Mono(Mono::Word)))
}

fn pair(alloc: Global) -> Result<Mono, AllocError> {
    htt_syntax_build::mono_pair(boxed(alloc, Ok(Mono::Var(0))), boxed(alloc, Ok(Mono::Loc)))
}

fn values(alloc: Global) -> Result<Seq<Term>, AllocError> {
    let mut values = Vec::new(alloc);
    values.push(Term::Unit)?;
    Ok(Seq::of(values))
}

fn spec() -> Result<Triple, AllocError> {
    htt_syntax_build::triple(Ok(Formula::Tt), Ok(Mono::Unit), Ok(Formula::Ff))
}

fn done(alloc: Global) -> Result<Comp, AllocError> {
    htt_syntax_build::comp(Ok(Seq::of(Vec::new(alloc))), Ok(Term::Unit))
}

fn looping(alloc: Global) -> Result<Fix, AllocError> {
    let mut params = Vec::new(alloc);
    params.push(Ty::Mono(Mono::Bool))?;
    htt_syntax_build::fix(7, Ok(Seq::of(params)), spec(), done(alloc))
}

fn steps(alloc: Global) -> Result<Seq<Step>, AllocError> {
    let mut steps = Vec::new(alloc);
    steps.push(htt_syntax_build::step_run(Ok(Term::Unit), Ok(None))?)?;
    steps.push(htt_syntax_build::step_alloc(pair(alloc), Ok(Term::Unit))?)?;
    steps.push(htt_syntax_build::step_get(pair(alloc), Ok(Term::Unit))?)?;
    steps.push(htt_syntax_build::step_set(pair(alloc), Ok(Term::Unit), Ok(Term::Unit))?)?;
    steps.push(htt_syntax_build::step_free(pair(alloc), Ok(Term::Unit))?)?;
    steps.push(Step::If(Mono::Word, Term::Unit, done(alloc)?, done(alloc)?))?;
    steps.push(htt_syntax_build::step_claim(Ok(Formula::Tt))?)?;
    Ok(Seq::of(steps))
}

#[test]
fn copies_terms(rt: HostRuntime) -> Result<(), Fail> {
    let alloc = rt.alloc();
    let terms = [
        Ok(Term::Val(1)),
        Ok(Term::Def(2)),
        htt_syntax_build::term_app(leaf(alloc), leaf(alloc)),
        htt_syntax_build::term_inst(leaf(alloc), pair(alloc)),
        htt_syntax_build::term_lam(leaf(alloc)),
        htt_syntax_build::term_lam_t(leaf(alloc)),
        boxed(alloc, done(alloc)).map(|comp| Term::Do(comp)),
        boxed(alloc, looping(alloc)).map(|fix| Term::Fix(fix)),
        Ok(Term::Word(3)),
        Ok(Term::Bool(true)),
        Ok(Term::Loc(4)),
        Ok(Term::Unit),
        htt_syntax_build::term_pair(leaf(alloc), leaf(alloc)),
        htt_syntax_build::term_fst(leaf(alloc)),
        htt_syntax_build::term_snd(leaf(alloc)),
        htt_syntax_build::term_not(leaf(alloc)),
        htt_syntax_build::term_bin(Op::Xor, leaf(alloc), leaf(alloc)),
        htt_syntax_build::term_eq(pair(alloc), leaf(alloc), leaf(alloc)),
        htt_syntax_build::term_sel(pair(alloc), leaf(alloc), leaf(alloc), leaf(alloc)),
        htt_syntax_build::term_ann(leaf(alloc), word(alloc)),
        htt_syntax_build::term_made(5, values(alloc)),
        htt_syntax_build::term_at(6, leaf(alloc)),
    ];
    for term in terms {
        assert!(rt; copy_term(alloc, &term?).is_ok());
    }
    Ok(())
}

#[test]
fn copies_formulas(rt: HostRuntime) -> Result<(), Fail> {
    let alloc = rt.alloc();
    let formulas = [
        Ok(Formula::Ff),
        htt_syntax_build::formula_and(truth(alloc), truth(alloc)),
        htt_syntax_build::formula_or(truth(alloc), truth(alloc)),
        htt_syntax_build::formula_imp(truth(alloc), truth(alloc)),
        htt_syntax_build::formula_all_t(pair(alloc), truth(alloc)),
        htt_syntax_build::formula_ex_t(pair(alloc), truth(alloc)),
        htt_syntax_build::formula_all_h(truth(alloc)),
        htt_syntax_build::formula_ex_h(truth(alloc)),
        htt_syntax_build::formula_emp(Ok(0)),
        htt_syntax_build::formula_cell(pair(alloc), Ok(0), Ok(Term::Unit), Ok(Term::Unit)),
        htt_syntax_build::formula_block(pair(alloc), Ok(0), Ok(Term::Unit)),
        htt_syntax_build::formula_join(Ok(0), Ok(1), Ok(2)),
        htt_syntax_build::formula_same(Ok(0), Ok(1)),
        htt_syntax_build::formula_eq(pair(alloc), Ok(Term::Unit), Ok(Term::Unit)),
        htt_syntax_build::formula_at(1, truth(alloc)),
        htt_syntax_build::formula_rec(0, Ok(0), Ok(Term::Unit), values(alloc)),
    ];
    for formula in formulas {
        assert!(rt; copy_formula(alloc, &formula?).is_ok());
    }
    Ok(())
}

#[test]
fn copies_types_and_computations(rt: HostRuntime) -> Result<(), Fail> {
    let alloc = rt.alloc();
    let types = [
        htt_syntax_build::ty_mono(pair(alloc)),
        htt_syntax_build::ty_fun(word(alloc), word(alloc)),
        htt_syntax_build::ty_all(word(alloc)),
        boxed(alloc, spec()).map(|spec| Ty::Hoare(spec)),
        htt_syntax_build::ty_at(8, word(alloc)),
    ];
    for ty in types {
        assert!(rt; copy_ty(alloc, &ty?).is_ok());
    }
    let comp = htt_syntax_build::comp(steps(alloc), Ok(Term::Unit))?;
    assert!(rt; copy_comp(alloc, &comp).is_ok());
    assert!(rt; copy_mono(alloc, &pair(alloc)?).is_ok());
    Ok(())
}
