//! Tests code by the same tests as a file, without its bytes: the version, the count of functions,
//! all headers, and then the instructions of each function. The places of the tests are 0.

ghost use Rattle.std.specs.Prelude.{◌≡◌, ◌≤◌, ◌<◌, ◌^◌, ◌↔◌, ◌∷◌, ◌++◌, [], true, length, IsTrue, slice_get};
ghost use Rattle.std.specs.Option.{option_map};
ghost use Rattle.word_loader_code.specs.Valid.{IsValid};
ghost use Rattle.word_loader_format.specs.Rows.{checked, rule};
ghost use Rattle.word_loader_format.specs.Reading.{header_of};
ghost use Rattle.word_loader.specs.Answers.{site_seen};
ghost use Rattle.word_loader.specs.Validity.{code_parts_tests, code_headers_tests, code_instr_tests, code_body_tests, code_bodies_tests, code_tests};

use crate::fields::{MAX_FUNCTIONS, rule};
use crate::parts::{in_version, numbers_of, opcode_of};
use crate::rules::{Site, check_header, check_opcode, check_operand};
use word_loader_code::{Code, Function, Instr};
use word_loader_format::{Fault, Header, Operand};

/// Whether code is valid: whether it has bytes that `load` reads. It takes no memory.
pub fn is_valid(code: &Code) -> bool
    ensures { IsTrue result ↔ IsValid code.now }
{
    check_code(code).is_ok()
}

fn check_code(code: &Code) -> Result<(), Fault>
    ensures { result ≡ checked (code_tests code.now) }
{
    let functions = code.functions.as_slice();
    rule(2, 0, code.version == 1 || code.version == 2)?;
    rule(
        3,
        0,
        !functions.is_empty() && functions.len() <= MAX_FUNCTIONS,
    )?;
    check_functions(code, functions)
}

fn check_functions(code: &Code, functions: &[Function]) -> Result<(), Fault>
    ensures { result ≡ checked (code_headers_tests true 0 functions.now ++ code_bodies_tests code.now functions.now) }
{
    check_headers(functions)?;
    check_bodies(code, functions)
}

fn header_of(function: &Function) -> Header
    ensures { result ≡ header_of function.now }
{
    Header {
        params: function.params,
        locals: function.locals,
        result: function.result,
        count: function.body.as_slice().len() as u64,
    }
}

fn check_headers(functions: &[Function]) -> Result<(), Fault>
    ensures { result ≡ checked (code_headers_tests true 0 functions.now) }
{
    let mut before = 0;
    for (i, function) in functions.iter().enumerate() {
        let header = header_of(function);
        check_header(0, i == 0, before, &header)?;
        before += header.count;
    }
    Ok(())
}

fn check_bodies(code: &Code, functions: &[Function]) -> Result<(), Fault>
    ensures { result ≡ checked (code_bodies_tests code.now functions.now) }
{
    for function in functions {
        check_body(code, function)?;
    }
    Ok(())
}

fn check_body(code: &Code, function: &Function) -> Result<(), Fault>
    ensures { result ≡ checked (code_body_tests code.now function.now function.now.body) }
{
    let body = function.body.as_slice();
    for i in 0..body.len() {
        check_instr(code, function, i + 1 == body.len(), &body[i])?;
    }
    Ok(())
}

fn check_instr(code: &Code, function: &Function, is_last: bool, instr: &Instr) -> Result<(), Fault>
    ensures { result ≡ checked (code_instr_tests code.now function.now is_last instr.now) }
{
    let opcode = check_opcode(0, is_last, in_version(code.version, Some(opcode_of(instr))))?;
    let operands = opcode.operands();
    let numbers = numbers_of(instr);
    let site = Site {
        own: header_of(function),
        callee: callee_of(code, numbers[0]),
        numbers: &numbers[..operands.len()],
    };
    check_parts(&site, operands)
}

fn callee_of(code: &Code, number: u64) -> Option<Header>
    ensures { result ≡ option_map header_of (slice_get code.now.functions number) }
{
    let functions = code.functions.as_slice();
    functions
        .get(number as usize)
        .map(|function| header_of(function))
}

fn check_parts(site: &Site<'_>, operands: &[Operand]) -> Result<(), Fault>
    requires { length operands.now ≡ length site.now.numbers.now }
    ensures { result ≡ checked (code_parts_tests (site_seen site.now) operands.now site.now.numbers.now) }
{
    let numbers = site.numbers;
    for i in 0..operands.len() {
        check_operand(site, 0, operands[i], numbers[i])?;
    }
    Ok(())
}
