//! Cases of brackets and monotypes, with texts by hand.

use super::*;
use htt_printer_names::NameScope;
use htt_syntax::Mono;
use sqlite_items::Boxed;
use std::alloc::{AllocError, Global};
use std::test::Fail;

fn pair(alloc: Global, left: Mono, right: Mono) -> Result<Mono, AllocError> {
    let left = Boxed::new(alloc, left)?;
    Ok(Mono::Pair(left, Boxed::new(alloc, right)?))
}

#[test]
fn a_pair_in_a_pair_has_brackets(rt: HostRuntime) -> Result<(), Fail> {
    let alloc = rt.alloc();
    let scope = NameScope::at_top(alloc, 0, &[], &[]);
    let left = pair(alloc, Mono::Word, Mono::Bool)?;
    let right = pair(alloc, Mono::Loc, Mono::Unit)?;
    let mono = pair(alloc, left, right)?;
    let mut out = Vec::new(alloc);
    push_mono(&mut out, &scope, &mono)?;
    assert_eq!(rt; out.as_slice(), b"(word * bool) * (loc * unit)".as_slice());
    Ok(())
}

#[test]
fn a_place_is_null_or_numbered(rt: HostRuntime) -> Result<(), Fail> {
    for (at, text) in [(0, "null"), (5, "place 5")] {
        let mut out = Vec::new(rt.alloc());
        push_literal_place(&mut out, at)?;
        assert_eq!(rt; out.as_slice(), text.as_bytes());
    }
    Ok(())
}
