//! The tests of the rows, in their order, of what was read or is to be written. A place is that of
//! the file; where there is none, as in a test of code, it is 0.

ghost use Rattle.std.specs.Prelude.{◌≡◌, ◌≤◌, ◌<◌, ◌+◌, ◌^◌, length, nat_le, slice_index, Ok, Err, MatchResult, Some};
ghost use Rattle.word_loader_format.specs.Rows.{checked, header_tests, opcode_tests, operand_tests, operands_tests, parts_tests, words_from};
ghost use Rattle.word_loader.specs.Answers.{AnswersTests, site_seen};

use crate::fields::{is_there, number_at, rule};
use crate::parts::leaves;
use word_loader_format::{Fault, Header, Opcode, Operand, Words};

/// The most locals of a function, and the most words that it returns.
const MAX_WORDS: u16 = 4096;

/// The most instructions of all functions together.
const MAX_INSTRS: u64 = 1_000_000;

/// The operation that takes one place, written twice. It is the one with the greatest number.
const NOT: u64 = 10;

/// What the operands of an instruction are tested against: its function, the function that it calls
/// if there is one, and the operands themselves.
#[derive(Clone, Copy)]
pub struct Site<'a> {
    pub own: Header,
    pub callee: Option<Header>,
    pub numbers: &'a [u64],
}

impl Site<'_> {
    /// The operand at this place among the operands, or 0 where there is none.
    fn number(&self, i: usize) -> u64
        ensures { result ≡ slice_index self.now.numbers.now i }
    {
        self.numbers.get(i).copied().unwrap_or(0)
    }
}

/// Rows 4 to 6: a header, behind others with so many instructions.
pub fn check_header(at: usize, is_first: bool, before: u64, header: &Header) -> Result<(), Fault>
    requires room { at < 2 ^ 63 }
    requires few { before ≤ 1000000 }
    ensures { result ≡ checked (header_tests at is_first before header.now) }
{
    rule(4, at + 2, header.locals <= MAX_WORDS)?;
    rule(4, at, header.params <= header.locals)?;
    rule(6, at, !is_first || header.params == 0)?;
    rule(4, at + 4, header.result <= MAX_WORDS)?;
    let count = header.count;
    rule(5, at + 6, count >= 1 && count <= MAX_INSTRS - before)
}

/// Rows 7 and 11: the instruction of a byte, if there is one.
pub fn check_opcode(at: usize, is_last: bool, opcode: Option<Opcode>) -> Result<Opcode, Fault>
    ensures { AnswersTests result (opcode_tests at is_last opcode) (λ op. opcode ≡ Some op) }
{
    let Some(found) = opcode else {
        return Err(Fault {
            at: at as u64,
            row: 7,
        });
    };
    rule(11, at, !is_last || leaves(found))?;
    Ok(found)
}

/// The number of words from a place on.
fn words_from(site: &Site<'_>, words: Words) -> u64
    ensures { result ≡ words_from (site_seen site.now) words }
{
    match words {
        Words::One => 1,
        Words::Counted => site.numbers.last().copied().unwrap_or(0),
        Words::Params => site.callee.map_or(0, |callee| u64::from(callee.params)),
        Words::Result => site.callee.map_or(0, |callee| u64::from(callee.result)),
        Words::Own => u64::from(site.own.result),
    }
}

fn fits(place: u64, words: u64, locals: u16) -> bool
    ensures { result ≡ nat_le (place + words) locals }
{
    let locals = u64::from(locals);
    words <= locals && place <= locals - words
}

/// Rows 7 to 10 and 13: an operand at a place.
pub fn check_operand(site: &Site<'_>, at: usize, operand: Operand, number: u64) -> Result<(), Fault>
    ensures { result ≡ checked (operand_tests (site_seen site.now) at operand number) }
{
    let locals = site.own.locals;
    match operand {
        Operand::Place(words) => rule(8, at, fits(number, words_from(site, words), locals)),
        Operand::Second => {
            rule(7, at, site.number(1) != NOT || number == site.number(2))?;
            rule(8, at, fits(number, 1, locals))
        }
        Operand::Count | Operand::Word => Ok(()),
        Operand::Operation => rule(7, at, number <= NOT),
        Operand::Target => rule(9, at, number < site.own.count),
        Operand::Callee => rule(10, at, site.callee.is_some()),
        Operand::Successor => {
            rule(10, at, site.callee.is_some())?;
            let result = words_from(site, Words::Result);
            rule(13, at, result == u64::from(site.own.result))
        }
    }
}
