//! Words copied, put and cleared at a place of one slice.

ghost use Rattle.std.specs.Prelude.{◌≡◌, ◌+◌, ◌≤◌, length, replicate};
ghost use Rattle.word_loader_code.specs.Machine.{words_at, with_words};

/// Copies so many words from one place to another. All are read before any is written.
pub(crate) fn copy_within(words: &mut [u64], from: usize, to: usize, count: usize)
    requires read { from + count ≤ length words.old }
    requires written { to + count ≤ length words.old }
    ensures { words.new ≡ with_words words.old to (words_at words.old from count) }
{
    words.copy_within(from..from + count, to);
}

/// Writes these words from a place on.
pub(crate) fn write_at(words: &mut [u64], at: usize, source: &[u64])
    requires { at + length source.now ≤ length words.old }
    ensures { words.new ≡ with_words words.old at source.now }
{
    words[at..at + source.len()].copy_from_slice(source);
}

/// Copies so many words from one place to another, and writes so many zeros behind them.
pub(crate) fn copy_before_zeros(
    words: &mut [u64],
    from: usize,
    to: usize,
    count: usize,
    zeros: usize,
)
    requires read { from + count ≤ length words.old }
    requires written { to + count + zeros ≤ length words.old }
    ensures { words.new ≡ with_words (with_words words.old to (words_at words.old from count)) (to + count) (replicate zeros 0) }
{
    copy_within(words, from, to, count);
    let end = to + count;
    words[end..end + zeros].fill(0);
}
