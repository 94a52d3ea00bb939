//! Names that may be declared, and names that may not; what names and heaps stand for at a place.

use crate::{Local, Scope, Sort, is_reserved, name_bytes};
use htt_parser_trees::{Binder, RawHeap, Span};
use htt_resolve_names::NameStop;
use std::test::Fail;

#[test]
fn a_reserved_name_has_digits_alone_behind_its_letter(rt: HostRuntime) -> Result<(), Fail> {
    for name in ["_x0", "_x00", "_a1", "_h12", "_u7"] {
        assert!(rt; is_reserved(name.as_bytes()), "{name}");
    }
    for name in ["_x", "_x1a", "_b1", "x0", "_", "__x0", "_xy", "_X0", ""] {
        assert!(rt; !is_reserved(name.as_bytes()), "{name}");
    }
    Ok(())
}

#[test]
fn a_name_is_its_bytes(rt: HostRuntime) -> Result<(), Fail> {
    let text = "def one : word = 1";
    assert_eq!(rt;
        name_bytes(text.as_bytes(), Span { from: 4, to: 7 }),
        "one".as_bytes()
    );
    Ok(())
}

/// The name of one letter that stands at this byte.
fn letter(at: u64) -> Span {
    Span {
        from: at,
        to: at.saturating_add(1),
    }
}

#[test]
fn the_innermost_binder_of_a_name_hides_the_others(rt: HostRuntime) -> Result<(), Fail> {
    let top = Scope::at_top(rt.alloc(), "h k h z".as_bytes(), &[]);
    let first = top.under_name(rt.alloc(), letter(0), Sort::Heap)?;
    let second = first.under(rt.alloc(), Binder::Blank, Sort::Term)?;
    assert_eq!(rt; second.heap_named(letter(4)), Ok(1));
    let third = second.under_name(rt.alloc(), letter(4), Sort::Heap)?;
    assert_eq!(rt; third.heap_named(letter(0)), Ok(0));
    assert_eq!(rt; second.heap_named(letter(0)), Ok(1));
    assert_eq!(rt;
        third.heap_named(letter(6)),
        Err(NameStop::Unbound { at: 6 })
    );
    Ok(())
}

#[test]
fn a_hypothesis_is_no_entry(rt: HostRuntime) -> Result<(), Fail> {
    let mut scope = Scope::at_top(rt.alloc(), "h u v".as_bytes(), &[]);
    scope.enter_binder(Binder::Name(letter(0)), Sort::Heap)?;
    scope.enter_binder(Binder::Name(letter(2)), Sort::Hypothesis)?;
    scope.enter_binder(Binder::Name(letter(4)), Sort::Hypothesis)?;
    assert_eq!(rt; scope.heap_named(letter(0)), Ok(0));
    assert_eq!(rt; scope.hypothesis_named(letter(2)), Ok(0));
    assert_eq!(rt; scope.hypothesis_named(letter(4)), Ok(1));
    assert_eq!(rt;
        scope.heap_named(letter(2)),
        Err(NameStop::WrongSort { at: 2 })
    );
    assert_eq!(rt;
        scope.hypothesis_named(letter(0)),
        Err(NameStop::WrongSort { at: 0 })
    );
    Ok(())
}

#[test]
fn mem_passes_over_so_many_of_its_kind(rt: HostRuntime) -> Result<(), Fail> {
    let top = Scope::at_top(rt.alloc(), "".as_bytes(), &[]);
    assert_eq!(rt; top.current_heap(3), Err(NameStop::WrongSort { at: 3 }));
    let scope = top.under_mem(rt.alloc())?.under_heaps(rt.alloc())?;
    for (over, answer) in [(None, Ok(0)), (Some(0), Ok(0)), (Some(1), Ok(2))] {
        assert_eq!(rt; scope.heap(&RawHeap::Mem { at: 15, over }), answer);
    }
    let far = RawHeap::Mem {
        at: 15,
        over: Some(2),
    };
    assert_eq!(rt; scope.heap(&far), Err(NameStop::WrongSort { at: 15 }));
    assert_eq!(rt; scope.heap(&RawHeap::Init { at: 4, over: None }), Ok(1));
    assert_eq!(rt; scope.current_heap(3), Ok(0));
    Ok(())
}
