//! What is computed at the root of a term, by hand, and what stays.

use super::*;
use htt_syntax::{Mono, Op, Term};
use htt_syntax_seq::boxed;
use std::alloc::{AllocError, Global};
use std::test::Fail;

fn word_of(term: &Term) -> Option<u64> {
    match term {
        Term::Word(word) => Some(*word),
        _ => None,
    }
}

fn truth_of(term: &Term) -> Option<bool> {
    match term {
        Term::Bool(truth) => Some(*truth),
        _ => None,
    }
}

fn pair(alloc: Global) -> Result<Term, AllocError> {
    let left = boxed(alloc, Ok(Term::Word(3)))?;
    Ok(Term::Pair(left, boxed(alloc, Ok(Term::Word(4)))?))
}

#[test]
fn operations_on_words_are_computed(rt: HostRuntime) -> Result<(), Fail> {
    let alloc = rt.alloc();
    for (op, left, right, word) in [
        (Op::Add, 18446744073709551615, 6, 5),
        (Op::Sub, 0, 1, 18446744073709551615),
        (Op::Mul, 4294967296, 4294967296, 0),
        (Op::And, 12, 10, 8),
        (Op::Or, 12, 10, 14),
        (Op::Xor, 12, 10, 6),
        (Op::Shl, 3, 65, 6),
        (Op::Shr, 8, 66, 2),
    ] {
        let term = folded_bin(alloc, op, Term::Word(left), Term::Word(right))?;
        assert_eq!(rt; word_of(&term), Some(word));
    }
    let less = folded_bin(alloc, Op::Lt, Term::Word(2), Term::Word(3))?;
    assert_eq!(rt; truth_of(&less), Some(true));
    let sum = folded_bin(alloc, Op::Add, Term::Var(0), Term::Word(0))?;
    assert!(rt; matches!(sum, Term::Bin(Op::Add, ..)));
    Ok(())
}

#[test]
fn literals_of_a_monotype_are_compared(rt: HostRuntime) -> Result<(), Fail> {
    let alloc = rt.alloc();
    for (mono, left, right, truth) in [
        (Mono::Word, Term::Word(2), Term::Word(2), Some(true)),
        (Mono::Word, Term::Word(2), Term::Word(3), Some(false)),
        (Mono::Bool, Term::Bool(true), Term::Bool(false), Some(false)),
        (Mono::Loc, Term::Loc(0), Term::Loc(0), Some(true)),
        (Mono::Loc, Term::Word(0), Term::Word(0), None),
        (Mono::Unit, Term::Unit, Term::Unit, None),
        (Mono::Word, Term::Var(0), Term::Var(0), None),
    ] {
        let term = folded_eq(alloc, mono, left, right)?;
        assert_eq!(rt; truth_of(&term), truth);
    }
    Ok(())
}

fn left_word(alloc: Global) -> Result<Option<u64>, AllocError> {
    let left = folded_fst(alloc, pair(alloc)?)?;
    Ok(word_of(&left))
}

fn right_word(alloc: Global) -> Result<Option<u64>, AllocError> {
    let right = folded_snd(alloc, pair(alloc)?)?;
    Ok(word_of(&right))
}

#[test]
fn parts_of_pairs_are_taken(rt: HostRuntime) -> Result<(), Fail> {
    assert_eq!(rt; left_word(rt.alloc())?, Some(3));
    assert_eq!(rt; right_word(rt.alloc())?, Some(4));
    Ok(())
}

#[test]
fn truth_values_are_turned(rt: HostRuntime) -> Result<(), Fail> {
    let other = folded_not(rt.alloc(), Term::Bool(true))?;
    assert_eq!(rt; truth_of(&other), Some(false));
    assert!(rt; matches!(folded_not(rt.alloc(), Term::Var(0))?, Term::Un(_)));
    Ok(())
}

#[test]
fn choices_are_taken(rt: HostRuntime) -> Result<(), Fail> {
    for (test, word) in [
        (Term::Bool(true), Some(1)),
        (Term::Bool(false), Some(2)),
        (Term::Var(0), None),
    ] {
        let term = folded_sel(rt.alloc(), Mono::Word, test, Term::Word(1), Term::Word(2))?;
        assert_eq!(rt; word_of(&term), word);
    }
    Ok(())
}
