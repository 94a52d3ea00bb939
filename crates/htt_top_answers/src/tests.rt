//! What no clause says: that lines are made and printed with ample memory, in the words that a user was
//! promised.

use crate::{Refusal, Success, print};
use heap_model_flat::Heap;
use htt_base::{MemSink, Status};
use htt_syntax_seq::Seq;
use htt_syntax_words::{Bound, Kind, SyntaxKind, Which};
use std::alloc::{AllocError, Global};
use std::test::Fail;

/// The status and the bytes of a printed answer.
fn printed(
    alloc: Global,
    answer: &Result<Success, Refusal>,
) -> Result<(Status, Vec<u8>), AllocError> {
    let mut out = MemSink::new(alloc, Vec::new(alloc));
    let status = print(alloc, answer, &mut out);
    Ok((status, out.bytes().to_vec(alloc)?))
}

#[test]
fn each_refusal_has_its_line(rt: HostRuntime) -> Result<(), Fail> {
    let kind = SyntaxKind::Utf8;
    let free = Kind::Free;
    let step = Bound::Step;
    for (refusal, line) in [
        (Refusal::Usage, "usage\n"),
        (Refusal::ReadFault, "read fault\n"),
        (Refusal::Limit(Which::File), "limit file 1048577\n"),
        (Refusal::Limit(Which::CodeFile), "limit codefile 33554433\n"),
        (Refusal::Limit(Which::HeapFile), "limit heapfile 16777217\n"),
        (Refusal::Syntax { at: 3, kind }, "syntax 3 utf8\n"),
        (Refusal::NotInferred { at: 78 }, "no main.1 78 infer\n"),
        (Refusal::BadCode { at: 20 }, "bad code 20\n"),
        (Refusal::BadHeap { line: 2 }, "bad heap 2\n"),
        (
            Refusal::Fault {
                kind: free,
                location: 0,
            },
            "fault free 0\n",
        ),
        (
            Refusal::Stopped {
                bound: step,
                count: 10,
            },
            "stopped step 10\n",
        ),
        (Refusal::NoMemory, "no memory\n"),
    ] {
        let (status, bytes) = printed(rt.alloc(), &Err(refusal))?;
        assert_eq!(rt; status, refusal.status());
        assert_eq!(rt; bytes.as_slice(), line.as_bytes());
    }
    Ok(())
}

#[test]
fn a_halt_prints_its_words_and_its_heap(rt: HostRuntime) -> Result<(), Fail> {
    let mut heap = Heap::new(rt.alloc());
    heap.put(9, Vec::new(rt.alloc()))?;
    heap.put(5, vec![in rt.alloc(); 42, 7]?)?;
    let words = Seq::of(vec![in rt.alloc(); 1, 0]?);
    let (status, bytes) = printed(rt.alloc(), &Ok(Success::Halted(words, heap)))?;
    assert_eq!(rt; status, Status::Done);
    assert_eq!(rt; bytes.as_slice(), b"words 1 0\n5: 42 7\n9:\n".as_slice());
    Ok(())
}
