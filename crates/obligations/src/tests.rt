//! Two items with two obligations and one, whose goals tell them apart.

use super::*;
use htt_syntax::{Formula, Sequent};
use htt_syntax_seq::Seq;
use std::alloc::{AllocError, Global};
use std::test::Fail;

fn owed(alloc: Global, heaps: &[u32]) -> Result<Vec<Sequent>, AllocError> {
    let mut owed = Vec::new(alloc);
    for heap in heaps {
        owed.push(Sequent {
            context: Seq::of(Vec::new(alloc)),
            hyps: Seq::of(Vec::new(alloc)),
            goal: Formula::Emp(*heap),
        })?;
    }
    Ok(owed)
}

fn heap_of(sequent: &Sequent) -> Option<u32> {
    match &sequent.goal {
        Formula::Emp(heap) => Some(*heap),
        _ => None,
    }
}

#[tactic(auto, using(crate::proofs::Rows::none_of_none))]
fn two_items(alloc: Global) -> Result<Table, AllocError> {
    let mut table = Table::new(alloc);
    table.add(3, owed(alloc, &[7, 8])?)?;
    table.add(5, owed(alloc, &[9])?)?;
    Ok(table)
}

#[test]
fn rows_are_numbered_in_each_item(rt: HostRuntime) -> Result<(), Fail> {
    let table = two_items(rt.alloc())?;
    for (row, item, number, heap) in [(0, 3, 1, 7), (1, 3, 2, 8), (2, 5, 1, 9)] {
        assert!(rt; row < table.len());
        assert_eq!(rt; table.item(row), item);
        assert_eq!(rt; table.number(row), number);
        assert_eq!(rt; heap_of(table.sequent(row)), Some(heap));
        assert!(rt; table.is_free(row));
    }
    assert_eq!(rt; table.len(), 3);
    Ok(())
}

#[test]
fn a_row_is_claimed_once(rt: HostRuntime) -> Result<(), Fail> {
    let mut table = two_items(rt.alloc())?;
    for (target, number, auto, answer) in [
        (Some(3), 9, false, Err(ClaimStop::Stray)),
        (Some(3), 0, false, Err(ClaimStop::Stray)),
        (Some(4), 1, false, Err(ClaimStop::Stray)),
        (None, 1, true, Err(ClaimStop::Stray)),
        (Some(5), 2, false, Err(ClaimStop::Stray)),
        (Some(3), 1, false, Ok(0)),
        (Some(3), 1, true, Err(ClaimStop::Twice)),
        (Some(5), 1, true, Ok(2)),
        (Some(5), 1, false, Err(ClaimStop::Twice)),
    ] {
        assert_eq!(rt; table.claim(target, number, auto), answer);
    }
    assert_eq!(rt; table.unproved()?.as_slice(), [1, 2].as_slice());
    assert!(rt; table.len() == 3);
    assert!(rt; table.is_free(1));
    assert!(rt; !table.is_free(2));
    Ok(())
}
