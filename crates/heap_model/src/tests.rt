//! Cases of encoding, decoding and printing.

use super::*;
use htt_syntax::Mono;
use sqlite_items::Boxed;
use std::alloc::{AllocError, Global};
use std::test::Fail;

fn pair(alloc: Global, first: Value, second: Value) -> Result<Value, AllocError> {
    let first = Boxed::new(alloc, first)?;
    Ok(Value::Pair(first, Boxed::new(alloc, second)?))
}

fn pair_type(alloc: Global, first: Mono, second: Mono) -> Result<Mono, AllocError> {
    let first = Boxed::new(alloc, first)?;
    Ok(Mono::Pair(first, Boxed::new(alloc, second)?))
}

fn word_and_truth(alloc: Global) -> Result<Value, AllocError> {
    pair(alloc, Value::Word(4), Value::Bool(true))
}

#[test]
fn a_value_is_printed(rt: HostRuntime) -> Result<(), Fail> {
    let alloc = rt.alloc();
    let words = pair(alloc, Value::Word(3), Value::Word(3))?;
    let twice = pair(alloc, word_and_truth(alloc)?, word_and_truth(alloc)?)?;
    for (value, text) in [
        (Value::Loc(5), "place 5"),
        (Value::Unit, "()"),
        (pair(alloc, Value::Loc(0), Value::Word(1))?, "(null, 1)"),
        (
            pair(alloc, words, twice)?,
            "((3, 3), ((4, true), (4, true)))",
        ),
    ] {
        assert_eq!(rt; write_value(alloc, &value)?.as_slice(), text.as_bytes());
    }
    Ok(())
}

#[test]
fn a_value_is_encoded_and_decoded(rt: HostRuntime) -> Result<(), Fail> {
    let alloc = rt.alloc();
    let t = pair_type(alloc, Mono::Word, Mono::Bool)?;
    let words = encode(alloc, &word_and_truth(alloc)?)?;
    assert_eq!(rt; words.as_slice(), [4, 1].as_slice());
    let value = decode(alloc, &t, &words)?.ok_or("these are words of a value")?;
    assert_eq!(rt;
        write_value(alloc, &value)?.as_slice(),
        b"(4, true)".as_slice()
    );
    Ok(())
}

#[test]
fn words_of_no_value_are_refused(rt: HostRuntime) -> Result<(), Fail> {
    let alloc = rt.alloc();
    let t = pair_type(alloc, Mono::Word, Mono::Bool)?;
    assert!(rt; decode(alloc, &Mono::Bool, &[7])?.is_none());
    assert!(rt; decode(alloc, &t, &[4])?.is_none());
    assert!(rt; decode(alloc, &t, &[4, 1, 0])?.is_none());
    assert!(rt; decode(alloc, &Mono::Unit, &[0])?.is_none());
    assert!(rt; decode(alloc, &Mono::Var(0), &[])?.is_none());
    Ok(())
}
