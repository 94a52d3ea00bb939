//! The tokens of a text with the places among them, and why reading stops.

ghost use Rattle.std.specs.Prelude.{◌≡◌, ◌<◌, ◌-◌, ◌^◌, true, drop, IsSome};
ghost use Rattle.htt_lexer_tokens.specs.declared.tokens.Kind.TheVariants as kinds;
ghost use Rattle.theory_grammar.specs.Readers.{first_is, same_kind};
ghost use Rattle.htt_parser_words.specs.declared.cursor.Halted.TheVariants.{NoMemory};
ghost use Rattle.htt_parser_words.specs.Results.{IsThere};

use htt_lexer_tokens::{Keyword, Kind, Sign, Token};
use std::alloc::{AllocError, AllocFailed, Global};

/// Why a token is refused: it isn't what is wanted, or what begins with it would be past the limit of
/// levels, of a chain's operands, or of declarations.
#[derive(Clone, Copy, Debug, PartialEq, Eq)]
pub enum Reason {
    Expected,
    TooNested,
    TooLong,
    TooMany,
}

/// Why reading stopped: the reason and the place of the refused token among the tokens, which is
/// their number at their end; or want of memory.
#[derive(Clone, Copy, Debug, PartialEq, Eq)]
pub enum Halted {
    At(Reason, usize),
    NoMemory,
}

impl From<AllocError> for Halted {
    ghost from_gives = { λ _ halted. halted ≡ NoMemory };

    fn from(_error: AllocError) -> Halted {
        Halted::NoMemory
    }
}

impl<T: Drop> From<AllocFailed<T>> for Halted {
    ghost from_gives = { λ _ halted. halted ≡ NoMemory };

    fn from(_error: AllocFailed<T>) -> Halted {
        Halted::NoMemory
    }
}

/// The tokens that are read, and where trees are put.
#[derive(Clone, Copy)]
pub struct Cursor<'a> {
    pub alloc: Global,
    pub tokens: &'a [Token],
}

impl Cursor<'_> {
    /// The token at a place.
    pub fn token(&self, at: usize) -> Option<Token>
        ensures is { IsThere self.now.tokens.now at result }
        ensures there { IsSome result → at < 2 ^ 64 - 1 }
    {
        self.tokens.get(at).copied()
    }

    /// Whether the token at a place is this sign.
    pub fn is_sign(&self, at: usize, sign: Sign) -> bool
        ensures is { result ≡ first_is (λ k. same_kind k (kinds.Sign sign)) (drop at self.now.tokens.now) }
        ensures there { result ≡ true → at < 2 ^ 64 - 1 }
    {
        match self.token(at) {
            Some(token) => token.kind == Kind::Sign(sign),
            None => false,
        }
    }

    /// Whether the token at a place is this word.
    pub fn is_word(&self, at: usize, word: Keyword) -> bool
        ensures is { result ≡ first_is (λ k. same_kind k (kinds.Keyword word)) (drop at self.now.tokens.now) }
        ensures there { result ≡ true → at < 2 ^ 64 - 1 }
    {
        match self.token(at) {
            Some(token) => token.kind == Kind::Keyword(word),
            None => false,
        }
    }
}
