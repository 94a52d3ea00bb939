//! Shapes by table, and what is refused. A sort is written as a letter: h a heap, w a word, b a truth value, l a
//! location, u the unit, and a pair in brackets.

use crate::{ArgSort, Axiom, AxiomStop, shape};
use htt_syntax::Mono;
use sqlite_items::Boxed;
use std::alloc::{AllocError, Global};
use std::test::Fail;

fn pair(alloc: Global, left: Mono, right: Mono) -> Result<Mono, AllocError> {
    Ok(Mono::Pair(Boxed::new(alloc, left)?, Boxed::new(alloc, right)?))
}

fn spell_mono(text: &mut String, mono: &Mono) -> Result<(), AllocError> {
    match mono {
        Mono::Word => text.push_str("w")?,
        Mono::Bool => text.push_str("b")?,
        Mono::Loc => text.push_str("l")?,
        Mono::Unit => text.push_str("u")?,
        Mono::Var(_) => text.push_str("a")?,
        Mono::Pair(left, right) => {
            text.push_str("(")?;
            spell_mono(text, left.get())?;
            spell_mono(text, right.get())?;
            text.push_str(")")?;
        }
    }
    Ok(())
}

fn spelled(alloc: Global, sorts: &[ArgSort]) -> Result<String, AllocError> {
    let mut text = String::new(alloc);
    for sort in sorts {
        match sort {
            ArgSort::Heap => text.push_str("h")?,
            ArgSort::Term(mono) => spell_mono(&mut text, mono)?,
        }
    }
    Ok(text)
}

#[test]
fn each_axiom_has_its_shape(rt: HostRuntime) -> Result<(), Fail> {
    let alloc = rt.alloc();
    let none: [Mono; 0] = [];
    let one = [Mono::Bool];
    let two = [Mono::Bool, Mono::Unit];
    let narrow = [Mono::Bool, Mono::Word];
    for (axiom, monos, sorts) in [
        (Axiom::EmpSome, none.as_slice(), ""),
        (Axiom::EmpOne, none.as_slice(), "hh"),
        (Axiom::JoinEmp, none.as_slice(), "hh"),
        (Axiom::JoinComm, none.as_slice(), "hhh"),
        (Axiom::JoinAssoc, none.as_slice(), "hhhhh"),
        (Axiom::JoinFun, none.as_slice(), "hhhh"),
        (Axiom::JoinCancel, none.as_slice(), "hhhh"),
        (Axiom::JoinEmpty, none.as_slice(), "hhh"),
        (Axiom::JoinCross, none.as_slice(), "hhhhh"),
        (Axiom::CellBlock, one.as_slice(), "hlb"),
        (Axiom::CellOne, one.as_slice(), "hhlb"),
        (Axiom::CellVal, one.as_slice(), "hlbb"),
        (Axiom::CellMake, one.as_slice(), "lb"),
        (Axiom::BlockPart, two.as_slice(), "hhhhhl"),
        (Axiom::BlockSep, two.as_slice(), "hhhl"),
        (Axiom::BlockNull, one.as_slice(), "h"),
        (Axiom::BlockEmp, one.as_slice(), "hl"),
        (Axiom::BlockWord, none.as_slice(), "hl"),
        (Axiom::BlockPlace, two.as_slice(), "hll"),
        (Axiom::BlockWidth, narrow.as_slice(), "hl"),
        (Axiom::AddComm, none.as_slice(), "ww"),
        (Axiom::MulComm, none.as_slice(), "ww"),
        (Axiom::AddAssoc, none.as_slice(), "www"),
        (Axiom::MulAssoc, none.as_slice(), "www"),
        (Axiom::AddZero, none.as_slice(), "w"),
        (Axiom::MulOne, none.as_slice(), "w"),
        (Axiom::MulZero, none.as_slice(), "w"),
        (Axiom::MulAdd, none.as_slice(), "www"),
        (Axiom::SubAdd, none.as_slice(), "ww"),
        (Axiom::AddSub, none.as_slice(), "ww"),
        (Axiom::LtIrrefl, none.as_slice(), "w"),
        (Axiom::LtZero, none.as_slice(), "w"),
        (Axiom::LtTrans, none.as_slice(), "www"),
        (Axiom::LtTotal, none.as_slice(), "ww"),
        (Axiom::LtStep, none.as_slice(), "ww"),
        (Axiom::LtGap, none.as_slice(), "ww"),
        (Axiom::LtPred, none.as_slice(), "w"),
        (Axiom::EqYes, one.as_slice(), "bb"),
        (Axiom::EqNo, one.as_slice(), "bb"),
        (Axiom::BoolOr, none.as_slice(), "b"),
        (Axiom::BoolNe, none.as_slice(), ""),
        (Axiom::PairEta, two.as_slice(), "(bu)"),
        (Axiom::UnitEta, none.as_slice(), "u"),
        (Axiom::AndZero, none.as_slice(), "w"),
        (Axiom::OrZero, none.as_slice(), "w"),
        (Axiom::XorSelf, none.as_slice(), "w"),
        (Axiom::ShlOne, none.as_slice(), "w"),
    ] {
        assert_eq!(rt;
            spelled(alloc, &shape(alloc, axiom, monos)?)?.as_str(),
            sorts
        );
    }
    Ok(())
}

fn stop_of(alloc: Global, axiom: Axiom, monos: &[Mono]) -> Option<AxiomStop> {
    shape(alloc, axiom, monos).err()
}

#[test]
fn another_count_of_monotypes_is_refused(rt: HostRuntime) -> Result<(), Fail> {
    let alloc = rt.alloc();
    let none: [Mono; 0] = [];
    let one = [Mono::Bool];
    let two = [Mono::Bool, Mono::Unit];
    let three = [Mono::Bool, Mono::Unit, Mono::Word];
    for (axiom, monos) in [
        (Axiom::EmpSome, one.as_slice()),
        (Axiom::AddComm, one.as_slice()),
        (Axiom::BoolNe, two.as_slice()),
        (Axiom::BlockWord, one.as_slice()),
        (Axiom::CellBlock, none.as_slice()),
        (Axiom::CellMake, two.as_slice()),
        (Axiom::EqYes, none.as_slice()),
        (Axiom::BlockPart, one.as_slice()),
        (Axiom::BlockPlace, three.as_slice()),
        (Axiom::BlockWidth, one.as_slice()),
        (Axiom::PairEta, three.as_slice()),
    ] {
        assert_eq!(rt; stop_of(alloc, axiom, monos), Some(AxiomStop::BadInstance));
    }
    Ok(())
}

#[test]
fn eq_compares_words_truths_and_places(rt: HostRuntime) -> Result<(), Fail> {
    let alloc = rt.alloc();
    for (mono, stop) in [
        (Mono::Word, None),
        (Mono::Bool, None),
        (Mono::Loc, None),
        (Mono::Unit, Some(AxiomStop::BadInstance)),
        (Mono::Var(0), Some(AxiomStop::BadInstance)),
        (
            pair(alloc, Mono::Word, Mono::Word)?,
            Some(AxiomStop::BadInstance),
        ),
    ] {
        let monos = [mono];
        assert_eq!(rt; stop_of(alloc, Axiom::EqYes, &monos), stop);
        assert_eq!(rt; stop_of(alloc, Axiom::EqNo, &monos), stop);
    }
    Ok(())
}

#[test]
fn blocks_change_to_monotypes_as_wide(rt: HostRuntime) -> Result<(), Fail> {
    let refused = Some(AxiomStop::BadInstance);
    for (t, s, stop) in [
        (Mono::Word, Mono::Loc, None),
        (Mono::Unit, Mono::Unit, None),
        (Mono::Word, Mono::Unit, refused),
        (Mono::Var(2), Mono::Var(2), None),
        (Mono::Var(2), Mono::Var(3), refused),
        (Mono::Word, Mono::Var(3), refused),
        (Mono::Unit, Mono::Var(3), refused),
    ] {
        assert_eq!(rt; stop_of(rt.alloc(), Axiom::BlockWidth, &[t, s]), stop);
    }
    Ok(())
}

#[test]
fn parts_of_pairs_are_counted_together(rt: HostRuntime) -> Result<(), Fail> {
    let alloc = rt.alloc();
    let refused = Some(AxiomStop::BadInstance);
    for (left, right, others, stop) in [
        (Mono::Var(2), Mono::Word, (Mono::Loc, Mono::Var(2)), None),
        (
            Mono::Var(2),
            Mono::Var(2),
            (Mono::Var(2), Mono::Var(3)),
            refused,
        ),
        (Mono::Unit, Mono::Bool, (Mono::Word, Mono::Unit), None),
        (Mono::Word, Mono::Unit, (Mono::Word, Mono::Word), refused),
        (Mono::Word, Mono::Unit, (Mono::Word, Mono::Var(2)), refused),
    ] {
        let t = pair(alloc, left, right)?;
        let s = pair(alloc, others.0, others.1)?;
        assert_eq!(rt; stop_of(alloc, Axiom::BlockWidth, &[t, s]), stop);
    }
    Ok(())
}

/// A monotype of as many words.
fn words(alloc: Global, count: u32) -> Result<Mono, AllocError> {
    let mut words = Mono::Word;
    for _ in 1..count {
        words = pair(alloc, words, Mono::Word)?;
    }
    Ok(words)
}

#[test]
fn a_pair_has_at_most_64_nodes(rt: HostRuntime) -> Result<(), Fail> {
    let alloc = rt.alloc();
    let large = Some(AxiomStop::MonoTooLarge);
    for (left, right, stop) in [
        (16, 16, None),
        (17, 16, large),
        (16, 17, large),
        (31, 1, None),
        (32, 1, large),
    ] {
        let monos = [words(alloc, left)?, words(alloc, right)?];
        assert_eq!(rt; stop_of(alloc, Axiom::PairEta, &monos), stop);
        assert_eq!(rt; stop_of(alloc, Axiom::BlockPlace, &monos), None);
    }
    Ok(())
}
