//! Variables written out at types, with memory enough.

use crate::expand;
use htt_syntax::{Comp, Formula, Mono, Step, Term, Triple, Ty};
use htt_syntax_seq::boxed;
use std::alloc::{AllocError, Global};
use std::test::Fail;

/// A computation that answers a word.
fn computation(alloc: Global) -> Result<Ty, AllocError> {
    let triple = Triple {
        pre: Formula::Tt,
        result: Mono::Word,
        post: Formula::Tt,
    };
    Ok(Ty::Hoare(boxed(alloc, Ok(triple))?))
}

fn function(alloc: Global, argument: Ty, answer: Ty) -> Result<Ty, AllocError> {
    Ok(Ty::Fun(boxed(alloc, Ok(argument))?, boxed(alloc, Ok(answer))?))
}

fn is_variable(term: &Term, index: u32) -> bool {
    match term {
        Term::Var(n) => *n == index,
        _ => false,
    }
}

/// The term that the computation runs, if it has one step, which runs a term to a word, and answers its result.
fn run_of(comp: &Comp) -> Option<&Term> {
    let steps = comp.steps.as_slice();
    if steps.len() != 1 || !is_variable(&comp.result, 0) {
        return None;
    }
    match &steps[0] {
        Step::Run(term, Some(Mono::Word)) => Some(term),
        _ => None,
    }
}

/// The head and the argument of the application that the function runs.
fn applied(function: &Term) -> Option<(&Term, &Term)> {
    let body = match function {
        Term::Lam(body) => body.get(),
        _ => return None,
    };
    let comp = match body {
        Term::Do(comp) => comp.get(),
        _ => return None,
    };
    match run_of(comp) {
        Some(Term::App(head, argument)) => Some((head.get(), argument.get())),
        _ => None,
    }
}

#[test]
fn a_value_stays(rt: HostRuntime) -> Result<(), Fail> {
    let alloc = rt.alloc();
    let term = expand(alloc, Term::Var(3), &Ty::Mono(Mono::Word))?;
    assert!(rt; is_variable(&term, 3));
    Ok(())
}

#[test]
fn a_function_is_applied_under_a_binder(rt: HostRuntime) -> Result<(), Fail> {
    let alloc = rt.alloc();
    let ty = function(alloc, Ty::Mono(Mono::Bool), computation(alloc)?)?;
    let term = expand(alloc, Term::Var(3), &ty)?;
    match applied(&term) {
        Some((head, argument)) => {
            assert!(rt; is_variable(head, 4));
            assert!(rt; is_variable(argument, 0));
        }
        None => assert!(rt; false),
    }
    Ok(())
}

#[test]
fn an_argument_is_written_out_too(rt: HostRuntime) -> Result<(), Fail> {
    let alloc = rt.alloc();
    let inner = function(alloc, Ty::Mono(Mono::Bool), computation(alloc)?)?;
    let ty = function(alloc, inner, computation(alloc)?)?;
    let term = expand(alloc, Term::Var(3), &ty)?;
    match applied(&term) {
        Some((head, argument)) => {
            assert!(rt; is_variable(head, 4));
            match applied(argument) {
                Some((head, argument)) => {
                    assert!(rt; is_variable(head, 1));
                    assert!(rt; is_variable(argument, 0));
                }
                None => assert!(rt; false),
            }
        }
        None => assert!(rt; false),
    }
    Ok(())
}
