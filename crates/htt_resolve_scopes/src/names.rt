//! Names as bytes.

ghost use Rattle.std.specs.Prelude.{◌≡◌};
ghost use Rattle.std.specs.Char.{is_ascii_digit};
ghost use Rattle.std.specs.List.{list_all};
ghost use Rattle.theory_text_names.specs.Scopes.{bytes_of, is_reserved};

use htt_parser_trees::Span;

/// The bytes of a name of the text: those of them that lie within the text, and none where the span ends before it
/// begins.
pub fn name_bytes(text: &[u8], span: Span) -> &[u8]
    ensures bytes { result.now ≡ bytes_of text.now span }
{
    let to = text.len().min(span.to as usize);
    let from = to.min(span.from as usize);
    &text[from..to]
}

/// Whether the name may not be declared: `_x`, `_a`, `_h` or `_u` before digits.
pub fn is_reserved(name: &[u8]) -> bool
    ensures reserved { result ≡ is_reserved name.now }
{
    match name {
        [b'_', b'x' | b'a' | b'h' | b'u', digit, digits @ ..] => {
            digit.is_ascii_digit() && all_digits(digits)
        }
        _ => false,
    }
}

fn all_digits(bytes: &[u8]) -> bool
    ensures all { result ≡ list_all is_ascii_digit bytes.now }
{
    bytes.iter().all(|byte| byte.is_ascii_digit())
}
