//! An instruction taken apart: what it is, and its operands in order, those that it hasn't as 0.

ghost use Rattle.std.specs.Prelude.{◌≡◌, ◌<◌, ◌≤◌, ◌+◌, ◌*◌, ◌%◌, length};
ghost use Rattle.word_loader_format.specs.Table.{opcode_of, numbers_of, is_read_whole, leaves, is_counted};
ghost use Rattle.word_loader_format.specs.Rows.{numbers_at, in_version, width_all};
ghost use Rattle.word_loader_format.specs.Reading.{instr_of};
ghost use Rattle.word_loader.specs.Parts.{padded};

use crate::fields::number_at;
use word_loader_code::Instr;
use word_loader_format::{Opcode, Operand, Words};

/// What an instruction is.
pub fn opcode_of(instr: &Instr) -> Opcode
    ensures { result ≡ opcode_of instr.now }
{
    match instr {
        Instr::Const(..) => Opcode::Const,
        Instr::Mov(..) => Opcode::Mov,
        Instr::Op(..) => Opcode::Op,
        Instr::Sel(..) => Opcode::Sel,
        Instr::Alloc(..) => Opcode::Alloc,
        Instr::Get(..) => Opcode::Get,
        Instr::Set(..) => Opcode::Set,
        Instr::Free(..) => Opcode::Free,
        Instr::Jump(..) => Opcode::Jump,
        Instr::Jz(..) => Opcode::Jz,
        Instr::Call(..) => Opcode::Call,
        Instr::Ret(..) => Opcode::Ret,
        Instr::Tail(..) => Opcode::Tail,
    }
}

/// The operands of an instruction.
pub fn numbers_of(instr: &Instr) -> [u64; 5]
    ensures { result ≡ padded (numbers_of instr.now) }
{
    match *instr {
        Instr::Const(d, v) => [u64::from(d), v, 0, 0, 0],
        Instr::Mov(d, s, n) => places([d, s, n, 0, 0]),
        Instr::Op(d, o, a, b) => places([d, u16::from(o), a, b, 0]),
        Instr::Sel(d, c, a, b, n) => places([d, c, a, b, n]),
        Instr::Alloc(d, s, n) => places([d, s, n, 0, 0]),
        Instr::Get(d, p, n) => places([d, p, n, 0, 0]),
        Instr::Set(p, s, n) => places([p, s, n, 0, 0]),
        Instr::Free(p, n) => places([p, n, 0, 0, 0]),
        Instr::Jump(target) => [u64::from(target), 0, 0, 0, 0],
        Instr::Jz(c, target) => [u64::from(c), u64::from(target), 0, 0, 0],
        Instr::Call(f, a, d) => [u64::from(f), u64::from(a), u64::from(d), 0, 0],
        Instr::Ret(s) => places([s, 0, 0, 0, 0]),
        Instr::Tail(f, a) => [u64::from(f), u64::from(a), 0, 0, 0],
    }
}

fn places(numbers: [u16; 5]) -> [u64; 5]
    ensures { result ≡ numbers }
{
    let [a, b, c, d, e] = numbers;
    [
        u64::from(a),
        u64::from(b),
        u64::from(c),
        u64::from(d),
        u64::from(e),
    ]
}

/// The instruction of these operands, each cut to the width of its field.
pub fn instr_of(opcode: Opcode, numbers: &[u64; 5]) -> Instr
    ensures { result ≡ instr_of opcode numbers.now }
{
    let [a, b, c, d, e] = *numbers;
    match opcode {
        Opcode::Const => Instr::Const(low16(a), b),
        Opcode::Mov => Instr::Mov(low16(a), low16(b), low16(c)),
        Opcode::Op => Instr::Op(low16(a), low8(b), low16(c), low16(d)),
        Opcode::Sel => Instr::Sel(low16(a), low16(b), low16(c), low16(d), low16(e)),
        Opcode::Alloc => Instr::Alloc(low16(a), low16(b), low16(c)),
        Opcode::Get => Instr::Get(low16(a), low16(b), low16(c)),
        Opcode::Set => Instr::Set(low16(a), low16(b), low16(c)),
        Opcode::Free => Instr::Free(low16(a), low16(b)),
        Opcode::Jump => Instr::Jump(low32(a)),
        Opcode::Jz => Instr::Jz(low16(a), low32(b)),
        Opcode::Call => Instr::Call(low32(a), low16(b), low16(c)),
        Opcode::Ret => Instr::Ret(low16(a)),
        Opcode::Tail => Instr::Tail(low32(a), low16(b)),
    }
}

fn low8(number: u64) -> u8
    ensures { result ≡ number % 256 }
{
    (number % 256) as u8
}

fn low16(number: u64) -> u16
    ensures { result ≡ number % 65536 }
{
    (number % 65536) as u16
}

fn low32(number: u64) -> u32
    ensures { result ≡ number % 4294967296 }
{
    (number % 4_294_967_296) as u32
}

/// The instruction of a byte in code of this version: `Tail` stands in version 2 alone.
pub fn in_version(version: u8, opcode: Option<Opcode>) -> Option<Opcode>
    ensures { result ≡ in_version version opcode }
{
    match opcode {
        Some(Opcode::Tail) if version != 2 => None,
        _ => opcode,
    }
}

/// No next instruction is done after this one.
pub fn leaves(opcode: Opcode) -> bool
    ensures { result ≡ leaves opcode }
{
    matches!(opcode, Opcode::Jump | Opcode::Ret | Opcode::Tail)
}

/// The number of words of some place stands later than the place.
pub fn is_read_whole(opcode: Opcode) -> bool
    ensures { result ≡ is_read_whole opcode }
{
    opcode.operands().iter().any(|operand| matches!(operand, Operand::Place(Words::Counted)))
}

/// The number of bytes of operands.
pub fn width_all(operands: &[Operand]) -> usize
    requires { length operands.now ≤ 5 }
    ensures width { result ≡ width_all operands.now }
    ensures narrow { result ≤ 8 * length operands.now }
{
    match operands {
        [] => 0,
        [first, rest @ ..] => first.width() + width_all(rest),
    }
}

/// The operands of these kinds from a place of a file on.
pub fn numbers_at(file: &[u8], at: usize, operands: &[Operand]) -> [u64; 5]
    requires few { length operands.now ≤ 5 }
    requires room { at ≤ length file.now }
    ensures { result ≡ padded (numbers_at file.now at operands.now) }
{
    let mut numbers = [0; 5];
    let mut place = at;
    for i in 0..operands.len() {
        numbers[i] = number_at(file, place, operands[i].width());
        place += operands[i].width();
    }
    numbers
}
