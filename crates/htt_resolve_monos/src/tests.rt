//! Monotypes of a text whose names have one letter.

use crate::{build_mono, measure_mono};
use htt_parser_trees::{MonoName, RawBracket, RawMono, RawRight, Span};
use htt_resolve_names::NameStop;
use htt_resolve_scopes::{Scope, Sort};
use htt_syntax::Mono;
use htt_syntax_measure::Size;
use htt_syntax_seq::{Seq, boxed};
use std::alloc::{AllocError, Global};
use std::test::Fail;

/// The name of the letter `a`, `b` or `c` in the text `abc`.
fn a() -> Span {
    Span { from: 0, to: 1 }
}

fn b() -> MonoName {
    MonoName::Name(Span { from: 1, to: 2 })
}

fn c() -> MonoName {
    MonoName::Name(Span { from: 2, to: 3 })
}

/// The monotype that is this word alone.
fn alone(alloc: Global, name: MonoName) -> RawMono {
    RawMono {
        name,
        right: RawRight::Nothing,
        brackets: Seq::of(Vec::new(alloc)),
    }
}

/// `* name`, at the right of a factor.
fn times(alloc: Global, name: MonoName) -> Result<RawRight, AllocError> {
    boxed(alloc, Ok(alone(alloc, name))).map(|mono| RawRight::Times(mono))
}

/// `) * name`, behind a bracket at 0.
fn behind(alloc: Global, name: MonoName) -> Result<RawBracket, AllocError> {
    boxed(alloc, Ok(alone(alloc, name))).map(|mono| RawBracket::Times { at: 0, mono })
}

fn brackets(alloc: Global, name: MonoName) -> Result<Seq<RawBracket>, AllocError> {
    let mut brackets = Vec::new(alloc);
    brackets.push(behind(alloc, name)?)?;
    Ok(Seq::of(brackets))
}

/// `(word * inner) * outer` behind its first bracket.
fn nested(alloc: Global, inner: MonoName, outer: MonoName) -> Result<RawMono, AllocError> {
    let brackets = brackets(alloc, outer)?;
    Ok(RawMono {
        name: MonoName::Word { at: 1 },
        right: times(alloc, inner)?,
        brackets,
    })
}

/// The place in the text `abc` under a binder of `a`.
fn under_a(alloc: Global, sort: Sort) -> Result<Scope<'static>, NameStop> {
    Scope::at_top(alloc, "abc".as_bytes(), &[]).under_name(alloc, a(), sort)
}

/// Whether it is a pair beside `bool`.
fn is_pair_and_bool(mono: &Mono) -> bool {
    match mono {
        Mono::Pair(left, right) => {
            matches!(left.get(), Mono::Pair(_, _)) && matches!(right.get(), Mono::Bool)
        }
        _ => false,
    }
}

#[test]
fn a_monotype_has_its_nodes_and_levels(rt: HostRuntime) -> Result<(), Fail> {
    let scope = under_a(rt.alloc(), Sort::Mono)?;
    let mono = nested(rt.alloc(), MonoName::Name(a()), MonoName::Bool { at: 9 })?;
    assert_eq!(rt;
        measure_mono(&scope, &mono),
        Ok(Size { nodes: 5, depth: 3 })
    );
    Ok(())
}

#[test]
fn brackets_are_at_the_left_of_what_stands_behind(rt: HostRuntime) -> Result<(), Fail> {
    let scope = under_a(rt.alloc(), Sort::Mono)?;
    let mono = nested(rt.alloc(), MonoName::Name(a()), MonoName::Bool { at: 9 })?;
    let built = build_mono(rt.alloc(), &scope, &mono)?;
    assert!(rt; is_pair_and_bool(&built));
    Ok(())
}

#[test]
fn the_first_name_that_stops_counts(rt: HostRuntime) -> Result<(), Fail> {
    let scope = under_a(rt.alloc(), Sort::Term)?;
    let mono = nested(rt.alloc(), b(), c())?;
    assert_eq!(rt;
        measure_mono(&scope, &mono),
        Err(NameStop::Unbound { at: 1 })
    );
    Ok(())
}

#[test]
fn a_name_of_another_sort_stops(rt: HostRuntime) -> Result<(), Fail> {
    let scope = under_a(rt.alloc(), Sort::Term)?;
    let mono = nested(rt.alloc(), MonoName::Name(a()), c())?;
    assert_eq!(rt;
        measure_mono(&scope, &mono),
        Err(NameStop::WrongSort { at: 0 })
    );
    Ok(())
}
