//! Cuts a text into its tokens. That the bytes are UTF-8 is tested first, over the whole text; then
//! one piece after the other is taken from the front and the tokens are kept, so that the time is
//! linear in the text.

ghost use Rattle.std.specs.Prelude.{◌≡◌, IfOk, IfErr};
ghost use Rattle.htt_lexer.specs.declared.lexer.LexStop.TheVariants.{NoMemory};
ghost use Rattle.htt_lexer.specs.Refusals.{RefusesText};
ghost use Rattle.htt_lexer.specs.Tokens.{AreTokens};

use crate::pieces::{Piece, piece_of};
use htt_lexer_tokens::Token;
use std::alloc::{AllocFailed, Global};
use thiserror::Error;

/// Why a text has no tokens. Places are counted in bytes, from 0.
#[derive(Debug, PartialEq, Eq, Drop, Error)]
pub enum LexStop {
    /// The bytes aren't UTF-8; `at` is the length of the longest prefix that is.
    #[error("the bytes from {at} on aren't UTF-8")]
    NotUtf8 { at: u64 },
    /// The first place where no blank, comment, token or number begins.
    #[error("no token begins at {at}")]
    BadChar { at: u64 },
    /// The first place where a number above 2^64 - 1 begins.
    #[error("the number at {at} is above 2^64 - 1")]
    LiteralTooLarge { at: u64 },
    #[error("out of memory")]
    NoMemory,
}

impl<T: Drop> From<AllocFailed<T>> for LexStop {
    ghost from_gives = { λ _ stop. stop ≡ NoMemory };

    fn from(_error: AllocFailed<T>) -> LexStop {
        LexStop::NoMemory
    }
}

/// The tokens of a text, in order.
///
/// Refuses bytes that aren't UTF-8, and then a text where no token begins, or where a number above
/// 2^64 - 1 begins, with the first such place.
pub fn tokens(alloc: Global, bytes: &[u8]) -> Result<Vec<Token>, LexStop>
    ensures tokens { IfOk result (λ tokens. AreTokens bytes.now tokens.items) }
    ensures refused { IfErr result (λ stop. RefusesText bytes.now stop) }
{
    match std::str::from_utf8(bytes) {
        Ok(text) => tokens_of(alloc, text),
        Err(error) => Err(LexStop::NotUtf8 {
            at: error.valid_up_to() as u64,
        }),
    }
}

fn tokens_of(alloc: Global, text: &str) -> Result<Vec<Token>, LexStop>
    ensures tokens { IfOk result (λ tokens. AreTokens text.now tokens.items) }
    ensures refused { IfErr result (λ stop. RefusesText text.now stop) }
{
    let mut tokens = Vec::new(alloc);
    let mut at = 0;
    loop {
        match piece_of(&text[at..]) {
            Piece::End => return Ok(tokens),
            Piece::Gap(length) => at += length,
            Piece::Token(kind, length) => {
                let end = at + length;
                let (from, to) = (at as u64, end as u64);
                tokens.push(Token { kind, from, to })?;
                at = end;
            }
            Piece::NoToken => return Err(LexStop::BadChar { at: at as u64 }),
            Piece::TooLarge => return Err(LexStop::LiteralTooLarge { at: at as u64 }),
        }
    }
}
