//! The atoms of states and of what is owed, in order, each with its indices, worked out by hand.

use super::*;
use htt_syntax::{Formula, Mono, Term, Triple};
use htt_syntax_seq::boxed;
use std::alloc::{AllocError, Global};
use std::test::Fail;

/// The form of an atom, and its indices; 99 stands for a literal, and 0 for what isn't there.
type Atom = (char, u32, u32, u32);

fn index_of(term: &Term) -> u32 {
    match term {
        Term::Var(index) => *index,
        _ => 99,
    }
}

fn add_atoms(formula: &Formula, found: &mut Vec<Atom>) -> Result<(), AllocError> {
    match formula {
        Formula::And(left, right) | Formula::Or(left, right) | Formula::Imp(left, right) => {
            add_atoms(left.get(), found)?;
            add_atoms(right.get(), found)
        }
        Formula::AllT(_, body) | Formula::ExT(_, body) => add_atoms(body.get(), found),
        Formula::AllH(body) | Formula::ExH(body) | Formula::At(_, body) => {
            add_atoms(body.get(), found)
        }
        Formula::Emp(heap) => Ok(found.push(('e', *heap, 0, 0))?),
        Formula::Cell(_, heap, place, value) => {
            Ok(found.push(('c', *heap, index_of(place), index_of(value)))?)
        }
        Formula::Block(_, heap, place) => Ok(found.push(('b', *heap, index_of(place), 0))?),
        Formula::Join(whole, left, right) => Ok(found.push(('j', *whole, *left, *right))?),
        Formula::Same(left, right) => Ok(found.push(('s', *left, *right, 0))?),
        Formula::Eq(_, left, right) => Ok(found.push(('q', index_of(left), index_of(right), 0))?),
        Formula::Tt | Formula::Ff | Formula::Rec(..) => Ok(()),
    }
}

fn atoms_of(alloc: Global, formula: &Formula) -> Result<Vec<Atom>, AllocError> {
    let mut found = Vec::new(alloc);
    add_atoms(formula, &mut found)?;
    Ok(found)
}

fn owed_atoms(alloc: Global, owed: &Option<Formula>) -> Result<Vec<Atom>, AllocError> {
    match owed {
        Some(formula) => atoms_of(alloc, formula),
        None => Ok(Vec::new(alloc)),
    }
}

fn held() -> Formula {
    Formula::Cell(Mono::Word, 0, Term::Var(2), Term::Var(3))
}

fn runs() -> Triple {
    Triple {
        pre: Formula::Emp(0),
        result: Mono::Word,
        post: held(),
    }
}

#[test]
fn each_step_has_its_state(rt: HostRuntime) -> Result<(), Fail> {
    let alloc = rt.alloc();
    let state = Formula::Same(0, 1);
    for (step, atoms) in [
        (
            Move::Alloc(Mono::Word, Term::Var(1)),
            [('s', 0, 2, 0), ('c', 0, 4, 6), ('j', 2, 1, 0)].as_slice(),
        ),
        (
            Move::Get(Mono::Word, Term::Var(1)),
            [('s', 0, 1, 0), ('c', 1, 6, 4), ('j', 2, 1, 0)].as_slice(),
        ),
        (
            Move::Set(Mono::Word, Term::Var(1), Term::Var(0)),
            [
                ('s', 3, 5, 0),
                ('b', 2, 8, 0),
                ('j', 3, 2, 0),
                ('c', 1, 8, 7),
                ('j', 4, 1, 0),
            ]
            .as_slice(),
        ),
        (
            Move::Free(Mono::Word, Term::Var(1)),
            [('s', 1, 3, 0), ('b', 0, 6, 0), ('j', 1, 0, 2)].as_slice(),
        ),
        (
            Move::Run(runs()),
            [
                ('s', 0, 2, 0),
                ('j', 2, 1, 0),
                ('e', 1, 0, 0),
                ('j', 4, 0, 1),
                ('c', 0, 6, 7),
            ]
            .as_slice(),
        ),
        (Move::Claim(held()), [('c', 0, 3, 4)].as_slice()),
    ] {
        let next = after(alloc, &step, &state)?;
        assert_eq!(rt; atoms_of(alloc, &next.state)?.as_slice(), atoms);
    }
    Ok(())
}

#[test]
fn each_step_owes_its_formula(rt: HostRuntime) -> Result<(), Fail> {
    let alloc = rt.alloc();
    let state = Formula::Same(0, 1);
    for (step, atoms) in [
        (Move::Alloc(Mono::Word, Term::Var(1)), [].as_slice()),
        (
            Move::Get(Mono::Word, Term::Var(1)),
            [('s', 0, 1, 0), ('c', 1, 6, 2), ('j', 3, 1, 0)].as_slice(),
        ),
        (
            Move::Free(Mono::Word, Term::Var(1)),
            [('s', 0, 1, 0), ('b', 1, 5, 0), ('j', 2, 1, 0)].as_slice(),
        ),
        (
            Move::Run(runs()),
            [('s', 0, 1, 0), ('j', 2, 1, 0), ('e', 1, 0, 0)].as_slice(),
        ),
        (
            Move::Claim(held()),
            [('s', 0, 1, 0), ('c', 0, 2, 3)].as_slice(),
        ),
    ] {
        let next = after(alloc, &step, &state)?;
        assert_eq!(rt; owed_atoms(alloc, &next.owed)?.as_slice(), atoms);
    }
    Ok(())
}

#[test]
fn bodies_begin_and_end(rt: HostRuntime) -> Result<(), Fail> {
    let alloc = rt.alloc();
    let begun = start(alloc, &held())?;
    assert_eq!(rt;
        atoms_of(alloc, &begun)?.as_slice(),
        [('c', 1, 3, 4), ('s', 0, 1, 0)].as_slice()
    );
    let branched = branch(alloc, &Formula::Same(0, 1), &Term::Var(1), true)?;
    assert_eq!(rt;
        atoms_of(alloc, &branched)?.as_slice(),
        [('s', 0, 1, 0), ('q', 3, 99, 0)].as_slice()
    );
    let equal = boxed(
        alloc,
        Ok(Formula::Eq(Mono::Word, Term::Var(3), Term::Var(2))),
    )?;
    let cell = Formula::Cell(Mono::Word, 0, Term::Var(4), Term::Var(3));
    let state = Formula::And(equal, boxed(alloc, Ok(cell))?);
    let bound = [Mono::Word, Mono::Word];
    let end = finish(alloc, &state, &bound, &Mono::Word, &Term::Var(3))?;
    assert_eq!(rt;
        atoms_of(alloc, &end)?.as_slice(),
        [('q', 1, 0, 0), ('c', 2, 5, 1), ('q', 4, 6, 0)].as_slice()
    );
    let merged = merge(alloc, &Formula::Emp(0), &Formula::Emp(1))?;
    let owed = last(alloc, &merged, &Formula::Same(1, 0))?;
    assert_eq!(rt;
        atoms_of(alloc, &owed)?.as_slice(),
        [('e', 0, 0, 0), ('e', 1, 0, 0), ('s', 1, 0, 0)].as_slice()
    );
    Ok(())
}
