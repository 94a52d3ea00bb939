//! The operations on words, by their numbers.

ghost use Rattle.std.specs.Prelude.{◌≡◌};
ghost use Rattle.word_loader_code.specs.Machine.{operation_result};

/// What the operation with this number gives for two words; 0 where there is no such operation.
pub(crate) fn operation(number: u8, x: u64, y: u64) -> u64
    ensures { result ≡ operation_result number x y }
{
    match number {
        0 => x.wrapping_add(y),
        1 => x.wrapping_sub(y),
        2 => x.wrapping_mul(y),
        3 => x & y,
        4 => x | y,
        5 => x ^ y,
        6 => x << (y % 64),
        7 => x >> (y % 64),
        8 => u64::from(x < y),
        9 => u64::from(x == y),
        10 => u64::from(x == 0),
        _ => 0,
    }
}
