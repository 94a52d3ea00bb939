//! What no clause says: that a command with ample memory isn't out of memory, and that the lines are
//! those that a user was promised.

use crate::htt_command;
use htt_base::{MemFiles, MemSink, Status};
use htt_syntax_words::{Bound, Kind, Rule, SyntaxKind, Which};
use std::alloc::{AllocError, Global};
use std::test::Fail;

const SUM: &[u8] =
    b"val main : {tt} x : word {x =[word] 5} = do ret 2 + 3\nproof main.1 = intro u; second(u)\n";

const WRONG: &[u8] =
    b"val main : {tt} x : word {x =[word] 6} = do ret 2 + 3\nproof main.1 = intro u; second(u)\n";

const WRAPS: &[u8] =
    b"val main : {tt} x : word {x =[word] 5} = do ret 18446744073709551615 + 6\nproof main.1 = intro u; second(u)\n";

const NO_PROOF: &[u8] = b"val main : {tt} x : word {x =[word] 5} = do ret 2 + 3\n";

const TOO_LARGE: &[u8] =
    b"val main : {tt} x : word {x =[word] 18446744073709551616} = do ret 0\nproof main.1 = intro u; second(u)\n";

/// `jump 0`, which never halts; and the same with a target that isn't there.
const LOOP: &[u8] = b"HTTW\x01\x01\0\0\0\0\0\0\0\0\0\x01\0\0\0\x08\0\0\0\0";

const FAR: &[u8] = b"HTTW\x01\x01\0\0\0\0\0\0\0\0\0\x01\0\0\0\x08\x01\0\0\0";

/// `const 0 5`, `get 0 0 1`, `ret 0`: the word at location 5.
const READ: &[u8] =
    b"HTTW\x01\x01\0\0\0\0\0\x01\0\x01\0\x03\0\0\0\0\0\0\x05\0\0\0\0\0\0\0\x05\0\0\0\0\x01\0\x0b\0\0";

/// `const 1 7`, `alloc 0 1 1`, `free 0 1`, `get 1 0 1`, `ret 1`: a block is read that was freed.
const FREED: &[u8] =
    b"HTTW\x01\x01\0\0\0\0\0\x02\0\x01\0\x05\0\0\0\0\x01\0\x07\0\0\0\0\0\0\0\x04\0\0\x01\0\x01\0\x07\0\0\x01\0\x05\x01\0\0\0\x01\0\x0b\x01\0";

/// With 4,096 locals: `call 0 0 0`, `ret 0`; and `alloc 0 0 4096`, `jump 0`.
const FRAMES: &[u8] = b"HTTW\x01\x01\0\0\0\0\0\0\x10\0\0\x02\0\0\0\x0a\0\0\0\0\0\0\0\0\x0b\0\0";

const BLOCKS: &[u8] = b"HTTW\x01\x01\0\0\0\0\0\0\x10\0\0\x02\0\0\0\x04\0\0\0\0\0\x10\x08\0\0\0\0";

const HEAP: &[u8] = b"5: 42\n9: 1\n";

/// Words, given as texts.
fn words_of(alloc: Global, texts: &[&str]) -> Result<Vec<String>, AllocError> {
    let mut words = Vec::new(alloc);
    for text in texts {
        words.push(String::from_str(alloc, text)?)?;
    }
    Ok(words)
}

/// The status and the output of a command where the files `F` and `H` hold these bytes.
fn command(
    alloc: Global,
    texts: &[&str],
    file: &[u8],
    heap: &[u8],
    failing_files: &[u64],
    failing_sink: &[u64],
) -> Result<(Status, Vec<u8>), AllocError> {
    let words = words_of(alloc, texts)?;
    let first = (String::from_str(alloc, "F")?, file.to_vec(alloc)?);
    let second = (String::from_str(alloc, "H")?, heap.to_vec(alloc)?);
    let entries = vec![in alloc; first, second]?;
    let mut files = MemFiles::new(alloc, entries, failing_files.to_vec(alloc)?);
    let mut out = MemSink::new(alloc, failing_sink.to_vec(alloc)?);
    let status = htt_command(alloc, &words, &mut files, &mut out);
    Ok((status, out.bytes().to_vec(alloc)?))
}

#[test]
fn texts_have_their_answers(rt: HostRuntime) -> Result<(), Fail> {
    let wrong = Status::No {
        decl: 1,
        at: 78,
        rule: Rule::Infer,
    };
    for (text, status, line) in [
        (SUM, Status::Done, b"value 5\n".as_slice()),
        (WRAPS, Status::Done, b"value 5\n".as_slice()),
        (WRONG, wrong, b"no main.1 78 infer\n".as_slice()),
    ] {
        let (answer, printed) = command(rt.alloc(), &["go", "F"], text, b"", &[], &[])?;
        assert_eq!(rt; answer, status);
        assert_eq!(rt; printed.as_slice(), line);
    }
    Ok(())
}

/// The form with blanks, comments and digits in other places, and a claim that is wrong in one of them.
#[test]
fn texts_are_read_by_their_tokens(rt: HostRuntime) -> Result<(), Fail> {
    let wrong = Status::No {
        decl: 1,
        at: 150,
        rule: Rule::Infer,
    };
    for (text, status) in [
        (
            b"val main:{tt}x:word{x=[word]0005}=do ret 002+03proof main.01=intro u;second(u)".as_slice(),
            Status::Done,
        ),
        (
            b"val--\nmain--\n:--\n{--\ntt--\n}--\nx--\n:--\nword--\n{--\nx--\n=--\n[--\nword--\n]--\n6--\n}--\n=--\ndo--\nret--\n2--\n+--\n3--\nproof--\nmain--\n.--\n1--\n=--\nintro--\nu--\n;--\nsecond--\n(--\nu--\n)--".as_slice(),
            wrong,
        ),
        (
            b"-- \xe2\x86\x92\rval\nval main:{tt}x:word{x=[word]5}=do\tret\r\n5 proof main.1=intro u;second(u)".as_slice(),
            Status::Done,
        ),
    ] {
        let (answer, _) = command(rt.alloc(), &["go", "F"], text, b"", &[], &[])?;
        assert_eq!(rt; answer, status);
    }
    Ok(())
}

/// Texts that are refused, with the place and the kind. The last ones are files, but not of the form.
#[test]
fn other_texts_are_refused(rt: HostRuntime) -> Result<(), Fail> {
    for (text, at, kind) in [
        (b"\xff".as_slice(), 0, SyntaxKind::Utf8),
        (b"val main -- \xe2".as_slice(), 12, SyntaxKind::Utf8),
        (b"val\x0cmain".as_slice(), 3, SyntaxKind::Char),
        (b"% 18446744073709551616".as_slice(), 0, SyntaxKind::Char),
        (TOO_LARGE, 36, SyntaxKind::Literal),
        (b"val  ".as_slice(), 5, SyntaxKind::Token),
        (b"val main val".as_slice(), 9, SyntaxKind::Token),
        (b"type a = word)".as_slice(), 13, SyntaxKind::Token),
        (b"".as_slice(), 0, SyntaxKind::Token),
        (NO_PROOF, 0, SyntaxKind::Token),
        (b"-- a\n type a = word".as_slice(), 6, SyntaxKind::Token),
        (
            b"val main:{tt}x:word{x=[word]5}=do ret 5 proof main.2=intro u;second(u)".as_slice(),
            0,
            SyntaxKind::Token,
        ),
        (
            b"val main:{tt}y:word{y=[word]5}=do ret 5 proof main.1=intro u;second(u)".as_slice(),
            0,
            SyntaxKind::Token,
        ),
    ] {
        let (answer, printed) = command(rt.alloc(), &["go", "F"], text, b"", &[], &[])?;
        assert_eq!(rt; answer, Status::Syntax { at, kind });
        assert!(rt; printed.as_slice().starts_with(b"syntax "));
    }
    Ok(())
}

/// A text that goes on with a part, so many times.
fn repeated(alloc: Global, start: &[u8], part: &[u8], count: u32) -> Result<Vec<u8>, AllocError> {
    let mut text = start.to_vec(alloc)?;
    for _ in 0..count {
        text.extend_from_slice(part)?;
    }
    Ok(text)
}

#[test]
fn texts_have_their_limits(rt: HostRuntime) -> Result<(), Fail> {
    let other = Status::Syntax {
        at: 0,
        kind: SyntaxKind::Token,
    };
    let nesting = Status::Limit {
        which: Which::Nesting,
    };
    let chain = Status::Limit {
        which: Which::Chain,
    };
    for (start, part, count, status) in [
        (b"type a = word".as_slice(), b"*word".as_slice(), 255, other),
        (
            b"type a = word".as_slice(),
            b"*word".as_slice(),
            256,
            nesting,
        ),
        (b"def a : word = 1".as_slice(), b"+1".as_slice(), 63, other),
        (b"def a : word = 1".as_slice(), b"+1".as_slice(), 64, chain),
    ] {
        let text = repeated(rt.alloc(), start, part, count)?;
        let (answer, _) = command(rt.alloc(), &["go", "F"], &text, b"", &[], &[])?;
        assert_eq!(rt; answer, status);
    }
    Ok(())
}

#[test]
fn code_runs_to_its_answer(rt: HostRuntime) -> Result<(), Fail> {
    let ten = Status::Stopped {
        which: Bound::Step,
        count: 10,
    };
    let freed = Status::MachineFault {
        kind: Kind::Get,
        location: 1,
    };
    let frames = Status::Stopped {
        which: Bound::Frame,
        count: 16_002_882,
    };
    let blocks = Status::Stopped {
        which: Bound::Heap,
        count: 16_002_882,
    };
    for (code, status, line) in [
        (FAR, Status::BadCode { at: 20 }, b"bad code 20\n".as_slice()),
        (LOOP, ten, b"stopped step 10\n".as_slice()),
        (FREED, freed, b"fault get 1\n".as_slice()),
        (FRAMES, frames, b"stopped frame 16002882\n".as_slice()),
        (BLOCKS, blocks, b"stopped heap 16002882\n".as_slice()),
    ] {
        let steps = if code == LOOP { "10" } else { "20000" };
        let (answer, printed) = command(
            rt.alloc(),
            &["run", "F", "--steps", steps],
            code,
            b"",
            &[],
            &[],
        )?;
        assert_eq!(rt; answer, status);
        assert_eq!(rt; printed.as_slice(), line);
    }
    Ok(())
}

#[test]
fn a_code_file_that_is_cut_or_too_long_is_bad(rt: HostRuntime) -> Result<(), Fail> {
    for count in 0..24 {
        let (answer, printed) = command(rt.alloc(), &["run", "F"], &LOOP[..count], b"", &[], &[])?;
        let line = format!(in rt.alloc(); "bad code {count}\n")?;
        assert_eq!(rt; answer, Status::BadCode { at: count as u64 });
        assert_eq!(rt; printed.as_slice(), line.as_bytes());
    }
    let mut long = LOOP.to_vec(rt.alloc())?;
    long.push(0)?;
    let (answer, _) = command(rt.alloc(), &["run", "F"], &long, b"", &[], &[])?;
    assert_eq!(rt; answer, Status::BadCode { at: 24 });
    Ok(())
}

#[test]
fn a_run_starts_from_the_heap_file(rt: HostRuntime) -> Result<(), Fail> {
    let no_block = Status::MachineFault {
        kind: Kind::Get,
        location: 5,
    };
    for (heap, status, lines) in [
        (HEAP, Status::Done, b"words 42\n5: 42\n9: 1\n".as_slice()),
        (b"5: 42 1\n", no_block, b"fault get 5\n".as_slice()),
        (b"", no_block, b"fault get 5\n".as_slice()),
        (
            b"5: 42\n5: 1\n",
            Status::BadHeap { line: 2 },
            b"bad heap 2\n".as_slice(),
        ),
        (
            b"5: 42\n7: 01\n",
            Status::BadHeap { line: 2 },
            b"bad heap 2\n".as_slice(),
        ),
        (
            b"5: 1\n6: 2",
            Status::BadHeap { line: 2 },
            b"bad heap 2\n".as_slice(),
        ),
        (
            b"0: 1\n",
            Status::BadHeap { line: 1 },
            b"bad heap 1\n".as_slice(),
        ),
    ] {
        let (answer, printed) = command(
            rt.alloc(),
            &["run", "F", "--heap", "H"],
            READ,
            heap,
            &[],
            &[],
        )?;
        assert_eq!(rt; answer, status);
        assert_eq!(rt; printed.as_slice(), lines);
    }
    Ok(())
}

/// Whether the words are refused as having no form.
fn is_usage(alloc: Global, words: &[&str]) -> Result<bool, AllocError> {
    let (answer, printed) = command(alloc, words, READ, HEAP, &[], &[])?;
    Ok(answer == Status::Usage && printed.as_slice() == b"usage\n".as_slice())
}

#[test]
fn words_without_a_form_are_usage(rt: HostRuntime) -> Result<(), Fail> {
    assert!(rt; is_usage(rt.alloc(), &[])?);
    assert!(rt; is_usage(rt.alloc(), &["go"])?);
    assert!(rt; is_usage(rt.alloc(), &["check", "F"])?);
    assert!(rt; is_usage(rt.alloc(), &["go", "F", "--steps", "5"])?);
    assert!(rt; is_usage(rt.alloc(), &["run", "F", "--steps", "5", "--heap", "H"])?);
    assert!(rt; is_usage(rt.alloc(), &["run", "F", "--steps", "0"])?);
    assert!(rt; is_usage(rt.alloc(), &["run", "F", "--steps", "010"])?);
    Ok(())
}

#[test]
fn each_file_has_its_limit(rt: HostRuntime) -> Result<(), Fail> {
    for (words, code, size, which, line) in [
        (
            ["go", "H", "", ""].as_slice(),
            READ,
            1_048_577,
            Which::File,
            "limit file 1048577\n",
        ),
        (
            ["run", "H", "", ""].as_slice(),
            READ,
            33_554_433,
            Which::CodeFile,
            "limit codefile 33554433\n",
        ),
        (
            ["run", "F", "--heap", "H"].as_slice(),
            READ,
            16_777_217,
            Which::HeapFile,
            "limit heapfile 16777217\n",
        ),
    ] {
        let spaces = vec![in rt.alloc(); b' '; size]?;
        let words = if words[2].is_empty() {
            &words[..2]
        } else {
            words
        };
        let (answer, printed) = command(rt.alloc(), words, code, &spaces, &[], &[])?;
        assert_eq!(rt; answer, Status::Limit { which });
        assert_eq!(rt; printed.as_slice(), line.as_bytes());
    }
    Ok(())
}

#[test]
fn faults_of_the_outside_are_told(rt: HostRuntime) -> Result<(), Fail> {
    let run = ["run", "F", "--heap", "H"];
    for failing in [0, 1] {
        let (answer, printed) = command(rt.alloc(), &run, READ, HEAP, &[failing], &[])?;
        assert_eq!(rt; answer, Status::ReadFault);
        assert_eq!(rt; printed.as_slice(), b"read fault\n".as_slice());
    }
    let (answer, _) = command(
        rt.alloc(),
        &["run", "F", "--heap", "other"],
        READ,
        HEAP,
        &[],
        &[],
    )?;
    assert_eq!(rt; answer, Status::ReadFault);
    let (answer, printed) = command(rt.alloc(), &run, READ, HEAP, &[], &[0])?;
    assert_eq!(rt; answer, Status::WriteFault);
    assert_eq!(rt; printed.as_slice(), b"".as_slice());
    Ok(())
}
