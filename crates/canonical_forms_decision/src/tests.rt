//! Terms that are canonical at a skeleton, and terms that aren't.

use crate::is_canonical;
use canonical_forms_skeletons::Skeleton;
use htt_syntax::{Op, Term};
use htt_syntax_seq::{Seq, boxed};
use std::alloc::{AllocError, Global};
use std::test::Fail;

fn sum(alloc: Global, left: Term, right: Term) -> Result<Term, AllocError> {
    Ok(Term::Bin(Op::Add, boxed(alloc, Ok(left))?, boxed(alloc, Ok(right))?))
}

fn arrow(alloc: Global) -> Result<Skeleton, AllocError> {
    Ok(Skeleton::Arrow(
        boxed(alloc, Ok(Skeleton::O))?,
        boxed(alloc, Ok(Skeleton::O))?,
    ))
}

#[test]
fn tells_canonical_terms(rt: HostRuntime) -> Result<(), Fail> {
    let alloc = rt.alloc();
    let value = [Skeleton::O];
    let function = [arrow(alloc)?];
    let identity = Term::Lam(boxed(alloc, Ok(Term::Var(0)))?);
    assert!(rt; is_canonical(alloc, &[], &[], &identity, &arrow(alloc)?)?);
    assert!(rt; !is_canonical(alloc, &[], &[], &identity, &Skeleton::O)?);
    // a variable of a monotype, of which nothing else is known; and a function that isn't written out
    assert!(rt; is_canonical(alloc, &value, &[], &Term::Var(0), &Skeleton::O)?);
    assert!(rt; !is_canonical(alloc, &function, &[], &Term::Var(0), &arrow(alloc)?)?);
    // a sum that is left, and one that is folded
    let open = sum(alloc, Term::Var(0), Term::Word(1))?;
    let closed = sum(alloc, Term::Word(2), Term::Word(1))?;
    assert!(rt; is_canonical(alloc, &value, &[], &open, &Skeleton::O)?);
    assert!(rt; !is_canonical(alloc, &value, &[], &closed, &Skeleton::O)?);
    // a made function
    let made = Term::Made(0, Seq::of(Vec::new(alloc)));
    assert!(rt; !is_canonical(alloc, &value, &[], &made, &Skeleton::O)?);
    Ok(())
}
