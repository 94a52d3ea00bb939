//! Fields of a file: numbers, lowest byte first, and the tests of one field.

ghost use Rattle.std.specs.Prelude.{◌≡◌, ◌<◌, ◌≤◌, ◌^◌, [], ◌∷◌, ◌++◌, length, OnOk};
ghost use Rattle.word_loader_format.specs.Numbers.{little_endian, number_written, number_in_file};
ghost use Rattle.word_loader_format.specs.Rows.{checked, is_there, rule};

use std::alloc::AllocError;
use word_loader_format::Fault;

/// The bytes `HTTW` as a number, with which a file begins.
pub const MAGIC: u64 = 0x5754_5448;

/// The most functions of a code.
pub const MAX_FUNCTIONS: usize = 4096;

/// The number that these bytes write.
fn number_of(bytes: &[u8]) -> u64
    requires { length bytes.now ≤ 8 }
    ensures value { result ≡ number_written bytes.now }
    ensures below { result < 256 ^ length bytes.now }
{
    match bytes {
        [] => 0,
        [first, rest @ ..] => u64::from(*first) + 256 * number_of(rest),
    }
}

/// The number of so many bytes at a place of a file, as if bytes beyond the end were 0.
pub fn number_at(file: &[u8], at: usize, width: usize) -> u64
    requires { width ≤ 8 }
    ensures value { result ≡ number_in_file file.now at width }
    ensures below { result < 256 ^ width }
{
    let rest = &file[at.min(file.len())..];
    number_of(&rest[..width.min(rest.len())])
}

/// Appends the lowest bytes of a number, so many.
pub fn put_number(out: &mut Vec<u8>, value: u64, width: usize) -> Result<(), AllocError>
    ensures { OnOk result (out.new.items ≡ out.old.items ++ little_endian width value) }
{
    let mut rest = value;
    for _ in 0..width {
        out.push((rest % 256) as u8)?;
        rest /= 256;
    }
    Ok(())
}

/// A test of a row, which blames the field at a place.
pub fn rule(row: u8, at: usize, holds: bool) -> Result<(), Fault>
    ensures { result ≡ checked (rule row at holds ∷ []) }
{
    if holds {
        Ok(())
    } else {
        Err(Fault { at: at as u64, row })
    }
}

/// The test that a field is there whole.
pub fn is_there(file: &[u8], at: usize, width: usize) -> Result<(), Fault>
    ensures { result ≡ checked (is_there file.now at width ∷ []) }
{
    let holds = at <= file.len() && width <= file.len() - at;
    rule(0, file.len(), holds)
}
