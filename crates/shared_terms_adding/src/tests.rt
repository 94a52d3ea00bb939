//! Trees by hand, with the places of their rows: each different part stands once, before what it is in.

use crate::{Tree, add};
use htt_syntax::{Comp, Formula, Mono, Op, Step, Term, Ty};
use htt_syntax_build::{comp, fix, step_get, term_bin, term_made, triple, ty_mono};
use htt_syntax_seq::{Seq, boxed};
use shared_terms_table::Table;
use std::alloc::{AllocError, Global};
use std::test::Fail;

fn sum(alloc: Global, left: u64, right: u64) -> Result<Term, AllocError> {
    term_bin(
        Op::Add,
        boxed(alloc, Ok(Term::Word(left))),
        boxed(alloc, Ok(Term::Word(right))),
    )
}

fn reading(alloc: Global) -> Result<Seq<Step>, AllocError> {
    let mut steps = Vec::new(alloc);
    steps.push(step_get(Ok(Mono::Word), Ok(Term::Loc(1)))?)?;
    Ok(Seq::of(steps))
}

/// `do _ <- get[word] place 1; ret 2 + 3`.
fn computation(alloc: Global) -> Result<Term, AllocError> {
    boxed(alloc, comp(reading(alloc), sum(alloc, 2, 3))).map(|comp| Term::Do(comp))
}

fn made(alloc: Global) -> Result<Term, AllocError> {
    let mut values = Vec::new(alloc);
    values.push(Term::Unit)?;
    values.push(Term::Unit)?;
    term_made(0, Ok(Seq::of(values)))
}

fn word_param(alloc: Global) -> Result<Seq<Ty>, AllocError> {
    let mut params = Vec::new(alloc);
    params.push(ty_mono(Ok(Mono::Word))?)?;
    Ok(Seq::of(params))
}

fn answer(alloc: Global) -> Result<Comp, AllocError> {
    comp(Ok(Seq::of(Vec::new(alloc))), Ok(Term::Var(0)))
}

/// A recursive function of a word that answers itself.
fn function(alloc: Global) -> Result<Term, AllocError> {
    let triple = triple(Ok(Formula::Tt), Ok(Mono::Word), Ok(Formula::Ff));
    boxed(alloc, fix(7, word_param(alloc), triple, answer(alloc))).map(|fix| Term::Fix(fix))
}

/// The place of the term in a table that was empty, and how many rows the table has then.
fn added(alloc: Global, term: &Term) -> Result<(usize, usize), AllocError> {
    let mut table = Table::new(alloc);
    let place = add(&mut table, Tree::Term(term))?;
    Ok((place, table.count()))
}

#[test]
fn a_part_that_stands_twice_has_one_row(rt: HostRuntime) -> Result<(), Fail> {
    let term = sum(rt.alloc(), 2, 2)?;
    assert_eq!(rt; added(rt.alloc(), &term)?, (1, 2));
    Ok(())
}

#[test]
fn a_tree_that_is_there_adds_nothing(rt: HostRuntime) -> Result<(), Fail> {
    let mut table = Table::new(rt.alloc());
    let term = sum(rt.alloc(), 2, 3)?;
    assert_eq!(rt; add(&mut table, Tree::Term(&term))?, 2);
    assert_eq!(rt; add(&mut table, Tree::Term(&term))?, 2);
    assert_eq!(rt; table.count(), 3);
    Ok(())
}

// the monotype, the place and the step; the numbers, the sum and the result; the computation and the `do`
#[test]
fn a_step_goes_before_the_rest_of_the_computation(rt: HostRuntime) -> Result<(), Fail> {
    let term = computation(rt.alloc())?;
    assert_eq!(rt; added(rt.alloc(), &term)?, (8, 9));
    Ok(())
}

// the unit, the empty list, the lists of one and of two, and the function
#[test]
fn a_list_shares_its_tail(rt: HostRuntime) -> Result<(), Fail> {
    let term = made(rt.alloc())?;
    assert_eq!(rt; added(rt.alloc(), &term)?, (4, 5));
    Ok(())
}

// the parameter's monotype and type; two formulas and the triple; the variable, the result, the body, the function
// from its parameter on, and the term
#[test]
fn a_parameter_goes_before_what_stands_under_it(rt: HostRuntime) -> Result<(), Fail> {
    let term = function(rt.alloc())?;
    assert_eq!(rt; added(rt.alloc(), &term)?, (9, 10));
    Ok(())
}
