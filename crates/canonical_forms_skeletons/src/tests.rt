//! Skeletons of types, by hand.

use crate::{copy_skeleton, same_skeletons, skeleton_of};
use htt_syntax::{Mono, Ty};
use htt_syntax_seq::boxed;
use std::alloc::{AllocError, Global};
use std::test::Fail;

fn to_word(alloc: Global) -> Result<Ty, AllocError> {
    Ok(Ty::Fun(
        boxed(alloc, Ok(Ty::Mono(Mono::Word)))?,
        boxed(alloc, Ok(Ty::Mono(Mono::Bool)))?,
    ))
}

#[test]
fn tells_skeletons_apart(rt: HostRuntime) -> Result<(), Fail> {
    let alloc = rt.alloc();
    let word = skeleton_of(alloc, &Ty::Mono(Mono::Word))?;
    let function = skeleton_of(alloc, &to_word(alloc)?)?;
    let polymorphic = skeleton_of(alloc, &Ty::All(boxed(alloc, to_word(alloc))?))?;
    assert!(rt; same_skeletons(&word, &word));
    assert!(rt; same_skeletons(&function, &copy_skeleton(alloc, &function)?));
    assert!(rt; same_skeletons(&polymorphic, &copy_skeleton(alloc, &polymorphic)?));
    assert!(rt; !same_skeletons(&word, &function));
    assert!(rt; !same_skeletons(&function, &polymorphic));
    Ok(())
}
