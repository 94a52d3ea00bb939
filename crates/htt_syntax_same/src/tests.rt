//! Monotypes that are the same, and some that differ in one place.

use super::*;
use htt_syntax::Mono;
use htt_syntax_seq::boxed;
use std::alloc::{AllocError, Global};
use std::test::Fail;

fn pair(alloc: Global, left: Mono, right: Mono) -> Result<Mono, AllocError> {
    let left = boxed(alloc, Ok(left))?;
    Ok(Mono::Pair(left, boxed(alloc, Ok(right))?))
}

#[test]
fn monotypes_are_told_apart(rt: HostRuntime) -> Result<(), Fail> {
    let alloc = rt.alloc();
    for (one, other, same) in [
        (Mono::Word, Mono::Word, true),
        (Mono::Word, Mono::Loc, false),
        (Mono::Unit, Mono::Bool, false),
        (Mono::Var(3), Mono::Var(3), true),
        (Mono::Var(3), Mono::Var(4), false),
    ] {
        assert_eq!(rt; same_mono(&one, &other), same);
    }
    let one = pair(alloc, Mono::Word, Mono::Bool)?;
    let other = pair(alloc, Mono::Word, Mono::Loc)?;
    assert!(rt; same_mono(&one, &one));
    assert!(rt; !same_mono(&one, &other));
    Ok(())
}
