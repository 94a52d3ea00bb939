//! Why tokens are refused, as the public calls say it.

ghost use Rattle.std.specs.Prelude.{◌≡◌};
ghost use Rattle.htt_parser.specs.Refusals.{stop_of};

use htt_parser_words::{Cursor, Halted, Reason};
use thiserror::Error;

/// Why tokens were refused. Places are counted in bytes, from 0: that of the refused token, or the
/// length of the text at its end.
#[derive(Debug, PartialEq, Eq, Drop, Error)]
pub enum ParseStop {
    /// Another token is wanted there.
    #[error("another token is wanted at {at}")]
    Expected { at: u64 },
    /// A phrase would have level 257.
    #[error("the phrase at {at} is nested too deeply")]
    TooNested { at: u64 },
    /// A chain would have 65 operands.
    #[error("the chain is too long at {at}")]
    TooLongChain { at: u64 },
    /// A file would have 10,001 declarations.
    #[error("there are too many declarations at {at}")]
    TooMany { at: u64 },
    #[error("out of memory")]
    NoMemory,
}

/// The place of a stop among the tokens of a text of this length.
pub fn stop(cursor: &Cursor, length: u64, halted: Halted) -> ParseStop
    ensures { result ≡ stop_of length cursor.now.tokens.now halted }
{
    match halted {
        Halted::NoMemory => ParseStop::NoMemory,
        Halted::At(reason, place) => {
            let at = match cursor.token(place) {
                Some(token) => token.from,
                None => length,
            };
            match reason {
                Reason::Expected => ParseStop::Expected { at },
                Reason::TooNested => ParseStop::TooNested { at },
                Reason::TooLong => ParseStop::TooLongChain { at },
                Reason::TooMany => ParseStop::TooMany { at },
            }
        }
    }
}
