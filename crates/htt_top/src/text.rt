//! The tokens and the declarations of a text, and its refusals as a command answers them.

ghost use Rattle.std.specs.Prelude.{◌≡◌, length};
ghost use Rattle.htt_parser.specs.Refusals.{first_byte};
ghost use Rattle.htt_top.specs.Stages.{ParseGives, TokensGive};
ghost use Rattle.htt_top.specs.Views.{decls_result, tokens_result};

use htt_lexer::{LexStop, tokens};
use htt_lexer_tokens::Token;
use htt_parser::{ParseStop, parse};
use htt_parser_trees::RawDecl;
use htt_syntax_words::{SyntaxKind, Which};
use htt_top_answers::Refusal;
use std::alloc::Global;

/// The tokens of a text.
pub(crate) fn tokens_of(alloc: Global, bytes: &[u8]) -> Result<Vec<Token>, Refusal>
    ensures { TokensGive bytes.now (tokens_result result) }
{
    match tokens(alloc, bytes) {
        Ok(tokens) => Ok(tokens),
        Err(LexStop::NotUtf8 { at }) => Err(Refusal::Syntax {
            at,
            kind: SyntaxKind::Utf8,
        }),
        Err(LexStop::BadChar { at }) => Err(Refusal::Syntax {
            at,
            kind: SyntaxKind::Char,
        }),
        Err(LexStop::LiteralTooLarge { at }) => Err(Refusal::Syntax {
            at,
            kind: SyntaxKind::Literal,
        }),
        Err(LexStop::NoMemory) => Err(Refusal::NoMemory),
    }
}

/// The declarations of a text with these tokens.
pub(crate) fn decls_of(
    alloc: Global,
    bytes: &[u8],
    tokens: &[Token],
) -> Result<Vec<RawDecl>, Refusal>
    ensures { ParseGives bytes.now tokens.now (decls_result result) }
{
    match parse(alloc, bytes, tokens) {
        Ok(decls) => Ok(decls),
        Err(ParseStop::Expected { at }) => Err(Refusal::Syntax {
            at,
            kind: SyntaxKind::Token,
        }),
        Err(ParseStop::TooNested { .. }) => Err(Refusal::Limit(Which::Nesting)),
        Err(ParseStop::TooLongChain { .. }) => Err(Refusal::Limit(Which::Chain)),
        Err(ParseStop::TooMany { .. }) => Err(Refusal::Limit(Which::Declarations)),
        Err(ParseStop::NoMemory) => Err(Refusal::NoMemory),
    }
}

/// Where a text that has declarations, but not those of a form, is refused: at its first token.
pub(crate) fn first_byte(bytes: &[u8], tokens: &[Token]) -> u64
    ensures { result ≡ first_byte (length bytes.now) tokens.now }
{
    match tokens.first() {
        Some(token) => token.from,
        None => bytes.len() as u64,
    }
}
