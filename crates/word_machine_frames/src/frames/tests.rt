ghost use Rattle.std.specs.Prelude.{◌≡◌};

use super::*;
use htt_syntax_seq::Seq;
use std::test::Fail;

fn callee(alloc: Global) -> Function
    ensures params { result.params ≡ 2 }
    ensures locals { result.locals ≡ 3 }
{
    Function {
        params: 2,
        locals: 3,
        result: 1,
        body: Seq::of(Vec::new(alloc)),
    }
}

#[test]
fn moves_overlapping_words(rt: HostRuntime) -> Result<(), Fail> {
    let mut frames = Frames::enter(rt.alloc(), 3)?;
    frames.set_word(0, 7);
    frames.set_word(1, 8);
    frames.move_words(1, 0, 2);
    assert_eq!(rt; frames.words(0, 3), [7, 7, 8].as_slice());
    assert_eq!(rt; frames.next(), 3);
    Ok(())
}

#[test]
fn calls_and_returns(rt: HostRuntime) -> Result<(), Fail> {
    let alloc = rt.alloc();
    let function = callee(alloc);
    let mut frames = Frames::enter(alloc, 2)?;
    frames.set_word(1, 8);
    frames.call(1, &function, 0, 1)?;
    assert_eq!(rt; (frames.function(), frames.next()), (1, 0));
    assert_eq!(rt; frames.words(0, 3), [0, 8, 0].as_slice());
    Ok(())
}

#[test]
fn replaces_a_frame(rt: HostRuntime) -> Result<(), Fail> {
    let alloc = rt.alloc();
    let function = callee(alloc);
    let mut frames = Frames::enter(alloc, 2)?;
    frames.set_word(1, 8);
    frames.tail(4, &function, 0)?;
    assert_eq!(rt; (frames.function(), frames.next()), (4, 0));
    assert_eq!(rt; frames.words(0, 3), [0, 8, 0].as_slice());
    frames.set_word(2, 9);
    frames.tail(5, &function, 1)?;
    assert_eq!(rt; frames.words(0, 3), [8, 9, 0].as_slice());
    Ok(())
}
