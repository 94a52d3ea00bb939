//! What holds of all words.

ghost use Rattle.htt_top_words.specs.Laws.{OneFormOfWords};

/// Words have one form at most.
pub fn one_form()
    ensures law { OneFormOfWords }
{}
