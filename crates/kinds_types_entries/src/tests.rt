//! A context with a monotype `a`, a location `l`, a value `x` of `a`, and a heap: the heap is 0, x is 1, l is 2, a is 3.

use super::*;
use htt_syntax::{Entry, Formula, Mono, RecPred, Rule, Term, Ty, Which};
use htt_syntax_seq::{Seq, boxed};
use std::alloc::{AllocError, Global};
use std::test::Fail;

fn context(alloc: Global) -> Result<Vec<Entry>, AllocError> {
    let mut entries = Vec::new(alloc);
    entries.push(Entry::Mono)?;
    entries.push(Entry::Term(Ty::Mono(Mono::Loc)))?;
    entries.push(Entry::Term(Ty::Mono(Mono::Var(1))))?;
    entries.push(Entry::Heap)?;
    Ok(entries)
}

/// The product of a monotype with itself, so many times over.
fn product(alloc: Global, times: u32) -> Result<Mono, AllocError> {
    let mut product = Mono::Word;
    for _ in 0..times {
        let left = boxed(alloc, Ok(Mono::Bool))?;
        product = Mono::Pair(left, boxed(alloc, Ok(product))?);
    }
    Ok(product)
}

fn ill(rule: Rule) -> Result<(), TypeStop> {
    Err(TypeStop::Ill { at: 9, rule })
}

#[test]
fn entries_are_told_apart(rt: HostRuntime) -> Result<(), Fail> {
    let entries = context(rt.alloc())?;
    for (index, heap, mono) in [
        (0, Ok(()), ill(Rule::Sort)),
        (1, ill(Rule::Sort), ill(Rule::Sort)),
        (2, ill(Rule::Sort), ill(Rule::Sort)),
        (3, ill(Rule::Sort), Ok(())),
        (4, ill(Rule::Sort), ill(Rule::Sort)),
    ] {
        assert_eq!(rt; is_heap(&entries, 9, index), heap);
        assert_eq!(rt; monotype(&entries, 9, &Mono::Var(index)), mono);
    }
    Ok(())
}

#[test]
fn a_type_is_seen_from_the_whole_context(rt: HostRuntime) -> Result<(), Fail> {
    let alloc = rt.alloc();
    let entries = context(alloc)?;
    let value = entry_type(alloc, &entries, 9, 1)?;
    assert!(rt; matches!(value, Ty::Mono(Mono::Var(3))));
    let place = entry_type(alloc, &entries, 9, 2)?;
    assert!(rt; matches!(place, Ty::Mono(Mono::Loc)));
    assert!(rt;
        matches!(
            entry_type(alloc, &entries, 9, 0),
            Err(TypeStop::Ill {
                at: 9,
                rule: Rule::Sort
            })
        )
    );
    Ok(())
}

#[test]
fn limits_are_exact(rt: HostRuntime) -> Result<(), Fail> {
    let alloc = rt.alloc();
    let entries = context(alloc)?;
    assert_eq!(rt; room(&entries, 4092), Ok(()));
    assert_eq!(rt; room(&entries, 4093), Err(TypeStop::Limit(Which::Context)));
    assert_eq!(rt; narrow(&product(alloc, 31)?), Ok(()));
    assert_eq!(rt;
        narrow(&product(alloc, 32)?),
        Err(TypeStop::Limit(Which::Mono))
    );
    Ok(())
}

#[test]
fn words_truth_values_and_locations_are_compared(rt: HostRuntime) -> Result<(), Fail> {
    for (mono, answer) in [
        (Mono::Word, Ok(())),
        (Mono::Bool, Ok(())),
        (Mono::Loc, Ok(())),
        (Mono::Unit, ill(Rule::Eq)),
        (Mono::Var(3), ill(Rule::Eq)),
        (product(rt.alloc(), 1)?, ill(Rule::Eq)),
    ] {
        assert_eq!(rt; comparable(9, &mono), answer);
    }
    Ok(())
}

#[test]
fn numbers_name_what_was_declared(rt: HostRuntime) -> Result<(), Fail> {
    let alloc = rt.alloc();
    let vals = [Ty::Mono(Mono::Word), Ty::Mono(Mono::Bool)];
    let second = value_type(alloc, &vals, 9, 1)?;
    assert!(rt; matches!(second, Ty::Mono(Mono::Bool)));
    let third = value_type(alloc, &vals, 9, 2);
    assert!(rt;
        matches!(
            third,
            Err(TypeStop::Ill {
                at: 9,
                rule: Rule::Sort
            })
        )
    );
    let defs = [(Ty::Mono(Mono::Word), Term::Word(5))];
    let (ty, term) = definition(alloc, &defs, 9, 0)?;
    assert!(rt; matches!((ty, term), (Ty::Mono(Mono::Word), Term::Word(5))));
    let recs = [RecPred {
        params: Seq::of(Vec::new(alloc)),
        zero: Formula::Tt,
        next: Formula::Ff,
    }];
    assert!(rt; matches!(predicate(&recs, 9, 0)?.next, Formula::Ff));
    assert!(rt; predicate(&recs, 9, 1).is_err());
    Ok(())
}
