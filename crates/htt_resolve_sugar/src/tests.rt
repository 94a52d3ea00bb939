//! Bodies where their predicates are used.

use crate::{Put, PutSize, body_size, body_with, put_argument, put_argument_size};
use htt_syntax::{Formula, Mono, Term};
use htt_syntax_build::{formula_eq, formula_ex_h, formula_ex_t, formula_same};
use htt_syntax_measure::Size;
use htt_syntax_seq::boxed;
use std::alloc::{AllocError, Global};
use std::test::Fail;

/// `ex y : word . x =[word] y`, under one parameter x and the heap: x has index 1, and index 2 under y.
fn body(alloc: Global) -> Result<Formula, AllocError> {
    let equation = formula_eq(Ok(Mono::Word), Ok(Term::Var(2)), Ok(Term::Var(0)));
    formula_ex_t(Ok(Mono::Word), boxed(alloc, equation))
}

/// `ex h : heap . Same(h, g)` with the heap g of index 0 outside of h.
fn same(alloc: Global) -> Result<Formula, AllocError> {
    formula_ex_h(boxed(alloc, formula_same(Ok(0), Ok(1))))
}

/// A term variable of index 0 put for the one parameter, and the heap of index 3.
fn puts(alloc: Global) -> Result<Vec<Put>, AllocError> {
    let mut puts = Vec::new(alloc);
    put_argument(alloc, &mut puts, &Mono::Word, Term::Var(0))?;
    puts.push(Put::Heap(3))?;
    Ok(puts)
}

/// The sizes where an argument of this size is put for the one parameter.
fn sizes(alloc: Global, argument: Size) -> Result<Vec<PutSize>, AllocError> {
    let mut sizes = Vec::new(alloc);
    put_argument_size(&mut sizes, &Mono::Word, argument)?;
    sizes.push(PutSize::Heap)?;
    Ok(sizes)
}

/// Whether it is `ex y : word . (z : word) =[word] y` with a z of index 0 outside of y.
fn is_without_capture(formula: &Formula) -> bool {
    match formula {
        Formula::ExT(Mono::Word, body) => match body.get() {
            Formula::Eq(Mono::Word, Term::Ann(term, _), Term::Var(0)) => {
                matches!(term.get(), Term::Var(1))
            }
            _ => false,
        },
        _ => false,
    }
}

/// Whether it is `ex h : heap . Same(h, g)` with the heap g of index 4 outside of h.
fn is_past_the_binder(formula: &Formula) -> bool {
    match formula {
        Formula::ExH(body) => matches!(body.get(), Formula::Same(0, 5)),
        _ => false,
    }
}

#[test]
fn a_binder_of_the_body_captures_nothing(rt: HostRuntime) -> Result<(), Fail> {
    let body = body(rt.alloc())?;
    let puts = puts(rt.alloc())?;
    let formula = body_with(rt.alloc(), &body, puts.as_slice())?;
    assert!(rt; is_without_capture(&formula));
    Ok(())
}

#[test]
fn a_heap_goes_past_the_binders(rt: HostRuntime) -> Result<(), Fail> {
    let same = same(rt.alloc())?;
    let puts = [Put::Heap(4)];
    let formula = body_with(rt.alloc(), &same, &puts)?;
    assert!(rt; is_past_the_binder(&formula));
    Ok(())
}

#[test]
fn the_size_is_that_of_the_body_made(rt: HostRuntime) -> Result<(), Fail> {
    let body = body(rt.alloc())?;
    let sizes = sizes(rt.alloc(), Size { nodes: 5, depth: 3 })?;
    let due = Size {
        nodes: 13,
        depth: 6,
    };
    assert_eq!(rt; body_size(&body, sizes.as_slice()), due);
    Ok(())
}

#[test]
fn an_argument_without_a_place_counts_nothing(rt: HostRuntime) -> Result<(), Fail> {
    let large = Size {
        nodes: 1_000_001,
        depth: 1_001,
    };
    let sizes = sizes(rt.alloc(), large)?;
    assert_eq!(rt; body_size(&Formula::Tt, sizes.as_slice()), Size::leaf());
    Ok(())
}
