//! Formulas and triples at other variables, by hand.

use super::*;
use htt_syntax::{Formula, Mono, Term, Triple};
use htt_syntax_seq::boxed;
use std::alloc::{AllocError, Global};
use std::test::Fail;

/// `ex h : heap . Cell[a](m, x, y) /\ Join(m, h, k)`, where `m` is a heap and the others are given.
fn cell_and_join(
    alloc: Global,
    m: u32,
    k: u32,
    a: u32,
    x: u32,
    y: u32,
) -> Result<Formula, AllocError> {
    let cell = boxed(
        alloc,
        Ok(Formula::Cell(Mono::Var(a), m, Term::Var(x), Term::Var(y))),
    )?;
    let join = boxed(alloc, Ok(Formula::Join(m, 0, k)))?;
    Ok(Formula::ExH(boxed(alloc, Ok(Formula::And(cell, join)))?))
}

/// The indices of a formula of that form.
fn indices_of(formula: &Formula) -> Option<(u32, u32, u32, u32, u32, u32)> {
    let Formula::ExH(body) = formula else {
        return None;
    };
    let Formula::And(cell, join) = body.get() else {
        return None;
    };
    match (cell.get(), join.get()) {
        (Formula::Cell(Mono::Var(a), m, Term::Var(x), Term::Var(y)), Formula::Join(_, h, k)) =>
            Some((*m, *h, *k, *a, *x, *y)),
        _ => None,
    }
}

#[test]
fn a_list_says_what_each_index_becomes(rt: HostRuntime) -> Result<(), Fail> {
    let alloc = rt.alloc();
    let formula = cell_and_join(alloc, 1, 2, 3, 4, 5)?;
    for (to, past, indices) in [
        ([0, 1, 2, 3], 0, (1, 0, 2, 3, 4, 1)),
        ([0, 1, 2, 3], 4, (1, 0, 2, 3, 4, 5)),
        ([3, 2, 1, 0], 9, (4, 0, 3, 2, 1, 10)),
        ([7, 7, 8, 8], 5, (8, 0, 8, 9, 9, 6)),
    ] {
        let renamed = rename_past(alloc, &formula, &to, past)?;
        assert_eq!(rt; indices_of(&renamed), Some(indices));
    }
    let renamed = rename(alloc, &formula, &[9, 8, 7, 6, 5])?;
    assert_eq!(rt; indices_of(&renamed), Some((10, 0, 9, 8, 7, 6)));
    Ok(())
}

#[test]
fn conditions_stand_at_heaps_and_a_value(rt: HostRuntime) -> Result<(), Fail> {
    let alloc = rt.alloc();
    let triple = Triple {
        pre: cell_and_join(alloc, 1, 1, 2, 3, 4)?,
        result: Mono::Word,
        post: cell_and_join(alloc, 1, 2, 4, 3, 5)?,
    };
    let pre = pre_at(alloc, &triple, 6)?;
    assert_eq!(rt; indices_of(&pre), Some((7, 0, 7, 1, 2, 3)));
    let post = post_at(alloc, &triple, 6, 7, 8)?;
    assert_eq!(rt; indices_of(&post), Some((8, 0, 7, 1, 9, 2)));
    Ok(())
}
