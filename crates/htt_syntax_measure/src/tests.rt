//! Sizes counted by hand.

use crate::{Size, size_of_formula, size_of_mono, size_of_term};
use htt_syntax::{Formula, Mono, Op, Step, Term};
use htt_syntax_build::{comp, formula_block, mono_pair, step_get, term_at, term_bin};
use htt_syntax_seq::{Seq, boxed};
use std::alloc::{AllocError, Global};
use std::test::Fail;

fn pair(alloc: Global) -> Result<Mono, AllocError> {
    mono_pair(boxed(alloc, Ok(Mono::Word)), boxed(alloc, Ok(Mono::Bool)))
}

/// A block of pairs at a place that has its byte.
fn block(alloc: Global) -> Result<Formula, AllocError> {
    formula_block(
        pair(alloc),
        Ok(0),
        term_at(7, boxed(alloc, Ok(Term::Loc(1)))),
    )
}

fn sum(alloc: Global) -> Result<Term, AllocError> {
    term_bin(
        Op::Add,
        boxed(alloc, Ok(Term::Word(2))),
        boxed(alloc, Ok(Term::Word(3))),
    )
}

fn reading(alloc: Global) -> Result<Seq<Step>, AllocError> {
    let mut steps = Vec::new(alloc);
    steps.push(step_get(Ok(Mono::Word), Ok(Term::Loc(1)))?)?;
    Ok(Seq::of(steps))
}

/// `do _ <- get[word] place 1; ret 2 + 3`.
fn computation(alloc: Global) -> Result<Term, AllocError> {
    boxed(alloc, comp(reading(alloc), sum(alloc))).map(|comp| Term::Do(comp))
}

#[test]
fn a_pair_is_a_node_over_two(rt: HostRuntime) -> Result<(), Fail> {
    let pair = pair(rt.alloc())?;
    assert_eq!(rt; size_of_mono(&pair), Size { nodes: 3, depth: 2 });
    Ok(())
}

#[test]
fn a_position_counts_nothing(rt: HostRuntime) -> Result<(), Fail> {
    let block = block(rt.alloc())?;
    assert_eq!(rt; size_of_formula(&block), Size { nodes: 5, depth: 3 });
    Ok(())
}

// the `do`, the computation, the step with its monotype and its place, and the sum with its operands; the step and the
// sum stand side by side
#[test]
fn steps_stand_beside_the_result(rt: HostRuntime) -> Result<(), Fail> {
    let term = computation(rt.alloc())?;
    assert_eq!(rt; size_of_term(&term), Size { nodes: 8, depth: 4 });
    Ok(())
}

#[test]
fn a_size_stops_at_the_greatest_number_of_64_bits(rt: HostRuntime) -> Result<(), Fail> {
    let large = Size {
        nodes: 1 << 63,
        depth: u64::MAX,
    };
    let most = Size {
        nodes: u64::MAX,
        depth: u64::MAX,
    };
    assert_eq!(rt; large.beside(large).under_node(), most);
    Ok(())
}

#[test]
fn a_limit_itself_is_not_past(rt: HostRuntime) -> Result<(), Fail> {
    let most = Size {
        nodes: 1_000_000,
        depth: 1_000,
    };
    assert!(rt; most.has_few_nodes());
    assert!(rt; most.is_flat());
    assert!(rt; !most.under_node().has_few_nodes());
    assert!(rt; !most.under_node().is_flat());
    Ok(())
}
