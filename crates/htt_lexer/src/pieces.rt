//! What stands at the front of a text: `piece_of` tells it from the first bytes alone. A blank, a
//! comment, a number and a word are told by their first byte or character and run as far as they can.
//! What is left is a sign, the longest that the next three bytes spell.

ghost use Rattle.std.specs.Prelude.{◌≡◌, ◌+◌, ◌*◌, ◌≤◌, true, not, length};
ghost use Rattle.std.specs.Char.{digit_value, is_ascii_digit};
ghost use Rattle.std.specs.List.{AllPass, prefix_len};
ghost use Rattle.std.specs.Str.{chars};
ghost use Rattle.unicode_ident.specs.Ident.{is_xid_continue};
ghost use Rattle.htt_lexer.specs.Pieces.{number_of, number_piece, piece_of, sign_piece, sign_within, starts_word, word_length, limited, word_piece};
ghost use Rattle.htt_lexer.specs.Tokens.{begins_word, is_blank, is_comment, word_kind};

use crate::tables::{keyword_of, sign_of};
use htt_lexer_tokens::{Kind, Sign};
use unicode_ident::{is_xid_continue, is_xid_start};

/// What stands at the front of a text: nothing, a gap or a token with the number of its bytes, bytes
/// that begin neither, or a number that is too large.
#[derive(Clone, Copy)]
pub enum Piece {
    End,
    Gap(usize),
    Token(Kind, usize),
    NoToken,
    TooLarge,
}

fn is_blank(byte: u8) -> bool
    ensures { result ≡ is_blank byte }
{
    matches!(byte, b' ' | b'\t' | b'\r' | b'\n')
}

fn begins_word(ch: char) -> bool
    ensures { result ≡ begins_word ch }
{
    is_xid_start(ch) || ch == '_'
}

fn ends_word(ch: char) -> bool
    ensures { result ≡ not (is_xid_continue ch) }
{
    !is_xid_continue(ch)
}

fn starts_word(text: &str) -> bool
    ensures { result ≡ starts_word (chars text.now) }
{
    text.starts_with(begins_word)
}

fn word_length(text: &str) -> usize
    ensures { result ≡ word_length (chars text.now) }
{
    text.find(ends_word).unwrap_or(text.len())
}

fn digits_length(text: &[u8]) -> usize
    ensures { result ≡ prefix_len is_ascii_digit text.now }
{
    text.iter().take_while(|byte| byte.is_ascii_digit()).count()
}

fn comment_length(text: &[u8]) -> usize
    ensures value { result ≡ prefix_len is_comment text.now }
    ensures within { result ≤ length text.now }
{
    text.iter().take_while(|byte| **byte != b'\n').count()
}

/// The number that a further digit makes of a number, if it is below 2^64.
fn with_digit(number: u64, digit: u8) -> Option<u64>
    requires { is_ascii_digit digit ≡ true }
    ensures { result ≡ limited (number * 10 + digit_value digit) }
{
    number.checked_mul(10)?.checked_add(u64::from(digit - b'0'))
}

/// The number that digits write, if it is below 2^64.
fn number_of(digits: &[u8]) -> Option<u64>
    requires { AllPass is_ascii_digit digits.now }
    ensures { result ≡ number_of digits.now }
{
    let mut number = 0u64;
    for digit in digits {
        number = with_digit(number, *digit)?;
    }
    Some(number)
}

fn number_piece(text: &[u8]) -> Piece
    ensures { result ≡ number_piece text.now }
{
    let length = digits_length(text);
    match number_of(&text[..length]) {
        Some(number) => Piece::Token(Kind::Number(number), length),
        None => Piece::TooLarge,
    }
}

fn word_kind(word: &[u8]) -> Kind
    ensures { result ≡ word_kind word.now }
{
    if word == b"_".as_slice() {
        return Kind::Sign(Sign::UnderscoreSign);
    }
    match keyword_of(word) {
        Some(keyword) => Kind::Keyword(keyword),
        None => Kind::Name,
    }
}

fn word_piece(text: &str) -> Piece
    ensures { result ≡ word_piece text.now }
{
    let length = word_length(text);
    Piece::Token(word_kind(&text.as_bytes()[..length]), length)
}

fn sign_within(most: usize, text: &[u8]) -> Option<Piece>
    ensures { result ≡ sign_within most text.now }
{
    let front = &text[..most.min(text.len())];
    let sign = sign_of(front)?;
    Some(Piece::Token(Kind::Sign(sign), front.len()))
}

fn sign_piece(text: &[u8]) -> Piece
    ensures { result ≡ sign_piece text.now }
{
    sign_within(3, text)
        .or_else(|| sign_within(2, text))
        .or_else(|| sign_within(1, text))
        .unwrap_or(Piece::NoToken)
}

/// What stands at the front of a text.
pub fn piece_of(text: &str) -> Piece
    ensures { result ≡ piece_of text.now }
{
    let bytes = text.as_bytes();
    match bytes {
        [] => Piece::End,
        [b'-', b'-', rest @ ..] => Piece::Gap(2 + comment_length(rest)),
        [first, ..] if is_blank(*first) => Piece::Gap(1),
        [first, ..] if first.is_ascii_digit() => number_piece(bytes),
        _ if starts_word(text) => word_piece(text),
        _ => sign_piece(bytes),
    }
}
