use super::*;
use htt_syntax_seq::Seq;
use std::alloc::{AllocError, Global};
use std::process::Abort;
use std::test::Fail;

/// `const 0 5`, `ret 0`, with one local.
const FIVE: &[u8; 33] =
    b"HTTW\x02\x01\0\0\0\0\0\x01\0\x01\0\x02\0\0\0\0\0\0\x05\0\0\0\0\0\0\0\x0b\0\0";

/// `tail 1 0`, and a function with `const 0 7`, `ret 0`.
const SEVEN: &[u8; 50] =
    b"HTTW\x02\x02\0\0\0\0\0\0\0\x01\0\x01\0\0\0\0\0\x01\0\x01\0\x02\0\0\0\x0c\x01\0\0\0\0\0\0\0\0\x07\0\0\0\0\0\0\0\x0b\0\0";

/// `jump 0`.
const JUMP: &[u8; 24] = b"HTTW\x01\x01\0\0\0\0\0\0\0\0\0\x01\0\0\0\x08\0\0\0\0";

/// Where and by which row bytes are refused; `None` where they are loaded, and row 255 where memory
/// ran out.
fn refusal(alloc: Global, bytes: &[u8]) -> Option<(u64, u8)> {
    match load(alloc, bytes) {
        Ok(_) => None,
        Err(LoadStop::Bad { at, row }) => Some((at, row)),
        Err(LoadStop::NoMemory) => Some((0, 255)),
    }
}

/// The bytes that are written of the code that these bytes have.
fn written_again(rt: &(impl Abort + AllocGlobal), bytes: &[u8]) -> Result<Vec<u8>, Fail> {
    let code = load(rt.alloc(), bytes)?;
    assert!(rt; is_valid(&code));
    Ok(write_code(rt.alloc(), &code)?)
}

fn with_byte(alloc: Global, bytes: &[u8], at: usize, byte: u8) -> Result<Vec<u8>, AllocError> {
    let mut changed = bytes.to_vec(alloc)?;
    if at < changed.len() {
        changed[at] = byte;
    }
    Ok(changed)
}

fn function(
    alloc: Global,
    locals: u16,
    words: u16,
    body: &[Instr],
) -> Result<Function, AllocError> {
    Ok(Function {
        params: 0,
        locals,
        result: words,
        body: Seq::of(body.to_vec(alloc)?),
    })
}

fn single(alloc: Global, version: u8, function: Function) -> Result<Code, AllocError> {
    let mut functions = Vec::new(alloc);
    functions.push(function)?;
    Ok(Code {
        version,
        functions: Seq::of(functions),
    })
}

#[test]
fn code_is_written_as_its_bytes(rt: HostRuntime) -> Result<(), Fail> {
    let body = [Instr::Const(0, 5), Instr::Ret(0)];
    let five = single(rt.alloc(), 2, function(rt.alloc(), 1, 1, &body)?)?;
    assert!(rt; is_valid(&five));
    assert_eq!(rt; write_code(rt.alloc(), &five)?.as_slice(), FIVE.as_slice());
    let old = single(rt.alloc(), 1, function(rt.alloc(), 1, 1, &body)?)?;
    assert!(rt; is_valid(&old));
    let bytes = with_byte(rt.alloc(), FIVE, 4, 1)?;
    assert_eq!(rt; write_code(rt.alloc(), &old)?.as_slice(), bytes.as_slice());
    Ok(())
}

#[test]
fn bytes_are_loaded_and_written_again(rt: HostRuntime) -> Result<(), Fail> {
    assert_eq!(rt; written_again(&rt, FIVE)?.as_slice(), FIVE.as_slice());
    assert_eq!(rt; written_again(&rt, SEVEN)?.as_slice(), SEVEN.as_slice());
    assert_eq!(rt; written_again(&rt, JUMP)?.as_slice(), JUMP.as_slice());
    let old = with_byte(rt.alloc(), FIVE, 4, 1)?;
    assert_eq!(rt;
        written_again(&rt, old.as_slice())?.as_slice(),
        old.as_slice()
    );
    Ok(())
}

#[test]
fn a_cut_file_ends_too_early(rt: HostRuntime) {
    for k in 0..24usize {
        assert_eq!(rt; refusal(rt.alloc(), &JUMP[..k]), Some((k as u64, 0)));
    }
}

#[test]
fn no_byte_follows_the_last_instruction(rt: HostRuntime) -> Result<(), Fail> {
    let mut longer = JUMP.to_vec(rt.alloc())?;
    longer.push(0)?;
    assert_eq!(rt; refusal(rt.alloc(), longer.as_slice()), Some((24, 12)));
    Ok(())
}

#[test]
fn the_opening_is_tested_first(rt: HostRuntime) {
    let table: [(&[u8], u64, u8); 5] = [
        (b"HTX", 3, 0),
        (b"HTTX", 0, 1),
        (b"HTTW\x03", 4, 2),
        // no function, and 5,000 functions
        (b"HTTW\x01\0\0\0\0", 5, 3),
        (b"HTTW\x01\x88\x13\0\0", 5, 3),
    ];
    for (bytes, at, row) in table {
        assert_eq!(rt; refusal(rt.alloc(), bytes), Some((at, row)), "at {at}");
    }
}

#[test]
fn a_header_is_read_whole_and_then_tested(rt: HostRuntime) {
    let table: [(&[u8], u64, u8); 6] = [
        // params 2, locals 1, without the last byte of the count; and with result 4097, count 0
        (b"HTTW\x01\x01\0\0\0\x02\0\x01\0\0\0\0\0\0", 18, 0),
        (b"HTTW\x01\x01\0\0\0\x02\0\x01\0\x01\x10\0\0\0\0", 9, 4),
        // params 1, locals 1, result 4097, count 0
        (b"HTTW\x01\x01\0\0\0\x01\0\x01\0\x01\x10\0\0\0\0", 9, 6),
        // the same with no params; and with result 0
        (b"HTTW\x01\x01\0\0\0\0\0\x01\0\x01\x10\0\0\0\0", 13, 4),
        (b"HTTW\x01\x01\0\0\0\0\0\x01\0\0\0\0\0\0\0", 15, 5),
        // counts 1,000,000 and 1, then locals 5,000
        (
            b"HTTW\x01\x03\0\0\0\0\0\0\0\0\0\x40\x42\x0f\0\0\0\0\0\0\0\x01\0\0\0\0\0\x88\x13\0\0\x01\0\0\0",
            25,
            5,
        ),
    ];
    for (bytes, at, row) in table {
        assert_eq!(rt; refusal(rt.alloc(), bytes), Some((at, row)), "at {at}");
    }
}

#[test]
fn an_operand_is_tested_when_it_is_read(rt: HostRuntime) {
    let table: [(&[u8], u64, u8); 7] = [
        // `const 1 ..` and `free 1 ..` cut after the place
        (b"HTTW\x01\x01\0\0\0\0\0\x01\0\0\0\x02\0\0\0\0\x01\0", 20, 8),
        (
            b"HTTW\x01\x01\0\0\0\0\0\x01\0\0\0\x02\0\0\0\x07\x01\0",
            20,
            8,
        ),
        // an operation 11, and `not` with unlike places of which the second is too far
        (
            b"HTTW\x01\x01\0\0\0\0\0\x01\0\0\0\x02\0\0\0\x02\0\0\x0b",
            22,
            7,
        ),
        (
            b"HTTW\x01\x01\0\0\0\0\0\x01\0\0\0\x02\0\0\0\x02\0\0\x0a\0\0\x09\0",
            25,
            7,
        ),
        // `jz 1 9` and `jz 0 9` in a body of two
        (
            b"HTTW\x01\x01\0\0\0\0\0\x01\0\0\0\x02\0\0\0\x09\x01\0\x09\0\0\0",
            20,
            8,
        ),
        (
            b"HTTW\x01\x01\0\0\0\0\0\x01\0\0\0\x02\0\0\0\x09\0\0\x09\0\0\0",
            22,
            9,
        ),
        // `jump 1` in a body of one
        (
            b"HTTW\x01\x01\0\0\0\0\0\0\0\0\0\x01\0\0\0\x08\x01\0\0\0",
            20,
            9,
        ),
    ];
    for (bytes, at, row) in table {
        assert_eq!(rt; refusal(rt.alloc(), bytes), Some((at, row)), "at {at}");
    }
}

#[test]
fn an_instruction_whose_words_are_counted_is_read_whole(rt: HostRuntime) {
    let table: [(&[u8], u64, u8); 2] = [
        // `set 2 0 ..` cut before its number of words, and whole
        (
            b"HTTW\x01\x01\0\0\0\0\0\x01\0\0\0\x02\0\0\0\x06\x02\0\0\0",
            24,
            0,
        ),
        (
            b"HTTW\x01\x01\0\0\0\0\0\x01\0\0\0\x02\0\0\0\x06\x02\0\0\0\x01\0",
            20,
            8,
        ),
    ];
    for (bytes, at, row) in table {
        assert_eq!(rt; refusal(rt.alloc(), bytes), Some((at, row)), "at {at}");
    }
}

#[test]
fn a_call_is_tested_from_its_function_on(rt: HostRuntime) {
    let table: [(&[u8], u64, u8); 3] = [
        // `call 1 9 9`, `call 0 9 9` and `call 0 1 9`, of one function, with one local and no result
        (
            b"HTTW\x01\x01\0\0\0\0\0\x01\0\0\0\x02\0\0\0\x0a\x01\0\0\0\x09\0\x09\0",
            20,
            10,
        ),
        (
            b"HTTW\x01\x01\0\0\0\0\0\x01\0\0\0\x02\0\0\0\x0a\0\0\0\0\x09\0\x09\0",
            24,
            8,
        ),
        (
            b"HTTW\x01\x01\0\0\0\0\0\x01\0\0\0\x02\0\0\0\x0a\0\0\0\0\x01\0\x09\0",
            26,
            8,
        ),
    ];
    for (bytes, at, row) in table {
        assert_eq!(rt; refusal(rt.alloc(), bytes), Some((at, row)), "at {at}");
    }
}

#[test]
fn the_byte_of_an_instruction_is_tested_before_its_operands(rt: HostRuntime) {
    let table: [(&[u8], u64, u8); 3] = [
        // `const 9 5` as the only instruction, whole and cut
        (
            b"HTTW\x01\x01\0\0\0\0\0\x01\0\0\0\x01\0\0\0\0\x09\0\x05\0\0\0\0\0\0\0",
            19,
            11,
        ),
        (
            b"HTTW\x01\x01\0\0\0\0\0\x01\0\0\0\x01\0\0\0\0\x09\0\x05",
            19,
            11,
        ),
        // a byte that begins no instruction
        (b"HTTW\x02\x01\0\0\0\0\0\0\0\0\0\x01\0\0\0\x0d", 19, 7),
    ];
    for (bytes, at, row) in table {
        assert_eq!(rt; refusal(rt.alloc(), bytes), Some((at, row)), "at {at}");
    }
}

#[test]
fn a_tail_call_stands_in_version_2_alone(rt: HostRuntime) -> Result<(), Fail> {
    let old = with_byte(rt.alloc(), SEVEN, 4, 1)?;
    assert_eq!(rt; refusal(rt.alloc(), old.as_slice()), Some((29, 7)));
    // function 5 isn't there; a function that returns no word can't take the place of one that does
    let far = with_byte(rt.alloc(), SEVEN, 30, 5)?;
    assert_eq!(rt; refusal(rt.alloc(), far.as_slice()), Some((30, 10)));
    let other = with_byte(rt.alloc(), SEVEN, 23, 0)?;
    assert_eq!(rt; refusal(rt.alloc(), other.as_slice()), Some((30, 13)));
    Ok(())
}

#[test]
fn a_place_of_no_words_may_be_at_the_end(rt: HostRuntime) -> Result<(), Fail> {
    let near = [Instr::Mov(1, 1, 0), Instr::Ret(0)];
    assert!(rt; is_valid(&single(rt.alloc(), 1, function(rt.alloc(), 1, 0, &near)?)?));
    let far = [Instr::Mov(2, 1, 0), Instr::Ret(0)];
    assert!(rt; !is_valid(&single(rt.alloc(), 1, function(rt.alloc(), 1, 0, &far)?)?));
    let unlike = [Instr::Op(0, 10, 0, 1), Instr::Ret(0)];
    assert!(rt; !is_valid(&single(rt.alloc(), 1, function(rt.alloc(), 2, 0, &unlike)?)?));
    Ok(())
}

/// The opening and header of a function with a million instructions, all but the last `free 0 0`.
#[test]
fn a_million_instructions_are_loaded(rt: HostRuntime) -> Result<(), Fail> {
    let mut bytes = b"HTTW\x01\x01\0\0\0\0\0\x01\0\0\0\x40\x42\x0f\0".to_vec(rt.alloc())?;
    for _ in 0..999_999u32 {
        bytes.extend_from_slice(b"\x07\0\0\0\0")?;
    }
    bytes.extend_from_slice(b"\x08\0\0\0\0")?;
    assert_eq!(rt; refusal(rt.alloc(), bytes.as_slice()), None);
    Ok(())
}
