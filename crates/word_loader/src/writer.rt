//! Writes code as its layout says: the opening, all headers, and then the instructions of each
//! function, each number with its field's width.

ghost use Rattle.std.specs.Prelude.{◌≡◌, ◌≤◌, ◌++◌, length, OnOk, IfOk};
ghost use Rattle.std.specs.List.{flat_map};
ghost use Rattle.word_loader_code.specs.Valid.{IsValid};
ghost use Rattle.word_loader_format.specs.Layout.{field_bytes, operand_fields, instr_fields, header_fields, body_fields, opening_fields, code_bytes};

use crate::fields::{MAGIC, put_number};
use crate::parts::{numbers_of, opcode_of};
use std::alloc::{AllocError, Global};
use word_loader_code::{Code, Function, Instr};
use word_loader_format::Operand;

/// The bytes of valid code. The only error is want of memory.
pub fn write_code(alloc: Global, code: &Code) -> Result<Vec<u8>, AllocError>
    requires { IsValid code.now }
    ensures { IfOk result (λ bytes. bytes.items ≡ code_bytes code.now) }
{
    let mut out = Vec::new(alloc);
    put_opening(&mut out, code)?;
    put_headers(&mut out, code.functions.as_slice())?;
    put_bodies(&mut out, code.functions.as_slice())?;
    Ok(out)
}

fn put_opening(out: &mut Vec<u8>, code: &Code) -> Result<(), AllocError>
    ensures { OnOk result (out.new.items ≡ out.old.items ++ flat_map field_bytes (opening_fields code.now)) }
{
    put_number(out, MAGIC, 4)?;
    put_number(out, u64::from(code.version), 1)?;
    put_number(out, code.functions.as_slice().len() as u64, 4)
}

fn put_headers(out: &mut Vec<u8>, functions: &[Function]) -> Result<(), AllocError>
    ensures { OnOk result (out.new.items ≡ out.old.items ++ flat_map field_bytes (flat_map header_fields functions.now)) }
{
    for function in functions {
        put_header(out, function)?;
    }
    Ok(())
}

fn put_header(out: &mut Vec<u8>, function: &Function) -> Result<(), AllocError>
    ensures { OnOk result (out.new.items ≡ out.old.items ++ flat_map field_bytes (header_fields function.now)) }
{
    put_number(out, u64::from(function.params), 2)?;
    put_number(out, u64::from(function.locals), 2)?;
    put_number(out, u64::from(function.result), 2)?;
    put_number(out, function.body.as_slice().len() as u64, 4)
}

fn put_bodies(out: &mut Vec<u8>, functions: &[Function]) -> Result<(), AllocError>
    ensures { OnOk result (out.new.items ≡ out.old.items ++ flat_map field_bytes (flat_map body_fields functions.now)) }
{
    for function in functions {
        put_body(out, function.body.as_slice())?;
    }
    Ok(())
}

fn put_body(out: &mut Vec<u8>, body: &[Instr]) -> Result<(), AllocError>
    ensures { OnOk result (out.new.items ≡ out.old.items ++ flat_map field_bytes (flat_map instr_fields body.now)) }
{
    for instr in body {
        put_instr(out, instr)?;
    }
    Ok(())
}

fn put_instr(out: &mut Vec<u8>, instr: &Instr) -> Result<(), AllocError>
    ensures { OnOk result (out.new.items ≡ out.old.items ++ flat_map field_bytes (instr_fields instr.now)) }
{
    let opcode = opcode_of(instr);
    put_number(out, u64::from(opcode.byte()), 1)?;
    put_operands(out, opcode.operands(), &numbers_of(instr))
}

fn put_operands(
    out: &mut Vec<u8>,
    operands: &[Operand],
    numbers: &[u64; 5],
) -> Result<(), AllocError>
    requires { length operands.now ≤ 5 }
    ensures { OnOk result (out.new.items ≡ out.old.items ++ flat_map field_bytes (operand_fields operands.now numbers.now)) }
{
    for i in 0..operands.len() {
        put_number(out, numbers[i], operands[i].width())?;
    }
    Ok(())
}
