//! `Span`: where a block stands in the vector of words.

ghost use Rattle.std.specs.Prelude.{◌≡◌};
ghost use Rattle.heap_model_flat.specs.Spans.{span_from};

/// The part of a vector of words from `start` on that has `len` words.
#[derive(Clone, Copy, Debug, PartialEq, Eq)]
pub struct Span {
    pub start: usize,
    pub len: usize,
}

impl Span {
    /// So many words from a place on. Where there are none the place is 0, so that the vector may end
    /// before any place that has no words behind it.
    pub fn new(start: usize, len: usize) -> Span
        ensures { result ≡ span_from start len }
    {
        let start = if len == 0 { 0 } else { start };
        Span { start, len }
    }
}
