//! Whether a row of the table spans the tokens from one place to another, where the phrases that may
//! stand in it are those of a chart.

ghost use Rattle.std.specs.Prelude.{◌≡◌, ◌<◌, IsTrue, drop, length};
ghost use Rattle.std.specs.List.{list_any};
ghost use Rattle.htt_parser_recogniser.specs.Chart.{asks_for, first_token_is, phrase_spans_of, row_follows, row_spans_of};

use htt_lexer_tokens::{Kind, Token};
use htt_parser_table::{Nonterminal, Symbol, alternatives};

/// A phrase of `nonterminal` from the token `from` up to the token `to`, that one left out.
#[derive(Clone, Copy, Debug, PartialEq, Eq)]
pub struct Edge {
    pub nonterminal: Nonterminal,
    pub from: usize,
    pub to: usize,
}

/// Whether the symbol is this token.
fn asks(symbol: Symbol, kind: Kind) -> bool
    ensures { result ≡ asks_for symbol kind }
{
    match symbol {
        Symbol::Word(word) => kind == Kind::Keyword(word),
        Symbol::Mark(sign) => kind == Kind::Sign(sign),
        Symbol::Name => kind == Kind::Name,
        Symbol::Number => matches!(kind, Kind::Number(_)),
        Symbol::Phrase(_) => false,
    }
}

/// Whether there is a token at this place, and the symbol is this token.
fn token_spans(symbol: Symbol, tokens: &[Token], from: usize) -> bool
    ensures value { result ≡ first_token_is (asks_for symbol) (drop from tokens.now) }
    ensures within { IsTrue result → from < length tokens.now }
{
    from < tokens.len() && asks(symbol, tokens[from].kind)
}

/// Whether the row spans the tokens from `from` up to `to`.
#[cycle(row)]
fn row_spans(row: &[Symbol], tokens: &[Token], chart: &[Edge], from: usize, to: usize) -> bool
    ensures { result ≡ row_spans_of row.now tokens.now chart.now from to }
{
    match row.split_first() {
        None => from == to,
        Some((symbol, rest)) => match symbol {
            Symbol::Phrase(nonterminal) => {
                phrase_then(*nonterminal, rest, tokens, chart, from, to)
            }
            _ => {
                token_spans(*symbol, tokens, from) && row_spans(rest, tokens, chart, from + 1, to)
            }
        },
    }
}

/// Whether a phrase of the chart and then the row span the tokens from `from` up to `to`.
#[cycle(row)]
fn phrase_then(
    nonterminal: Nonterminal,
    row: &[Symbol],
    tokens: &[Token],
    chart: &[Edge],
    from: usize,
    to: usize,
) -> bool
    ensures { result ≡ list_any (row_follows nonterminal row.now tokens.now chart.now from to) chart.now }
{
    for edge in chart {
        if edge.nonterminal == nonterminal
            && edge.from == from
            && row_spans(row, tokens, chart, edge.to, to)
        {
            return true;
        }
    }
    false
}

/// Whether some alternative of the edge's nonterminal spans its tokens.
pub fn phrase_spans(tokens: &[Token], chart: &[Edge], edge: &Edge) -> bool
    ensures { result ≡ phrase_spans_of tokens.now chart.now edge.now }
{
    for row in alternatives(edge.nonterminal) {
        if row_spans(row, tokens, chart, edge.from, edge.to) {
            return true;
        }
    }
    false
}
