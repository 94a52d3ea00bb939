//! Cases of names, with texts by hand.

use super::*;
use htt_resolve_scopes::Sort;
use std::test::Fail;

#[test]
fn an_index_is_printed_by_its_position(rt: HostRuntime) -> Result<(), Fail> {
    let alloc = rt.alloc();
    let mut scope = NameScope::at_top(alloc, 0, &[], &[]);
    for sort in [
        Sort::Mono,
        Sort::Heap,
        Sort::Mem,
        Sort::Term,
        Sort::Init,
        Sort::Mem,
    ] {
        scope.enter(sort)?;
    }
    for (index, text) in [
        (0, "mem"),
        (1, "init"),
        (2, "_x3"),
        (3, "mem^1"),
        (4, "_h1"),
        (5, "_a0"),
        (6, "_"),
    ] {
        let mut out = Vec::new(alloc);
        scope.push_entry(&mut out, index)?;
        assert_eq!(rt; out.as_slice(), text.as_bytes());
    }
    Ok(())
}
