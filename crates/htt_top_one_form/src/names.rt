//! The names of a text, which a tree keeps as spans.

ghost use Rattle.std.specs.Prelude.{◌≡◌};
ghost use Rattle.htt_top_one_form.specs.Matching.{span_reads};

use htt_parser_trees::Span;

/// Whether the bytes of the text at the span are those of the word.
pub(crate) fn is_named(text: &[u8], span: Span, word: &[u8]) -> bool
    ensures { result ≡ span_reads text.now span word.now }
{
    if span.to < span.from || span.to > text.len() as u64 {
        return false;
    }
    &text[span.from as usize..span.to as usize] == word
}
