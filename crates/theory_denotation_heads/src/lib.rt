//! Only the heads that a canonical tree may use count for what it denotes. A function without a body
//! states a law by its contract.
#![tactic(auto)]

ghost use Rattle.theory_denotation_heads.specs.Laws.{FileEntriesDenote, UsedHeadsCount};

/// Entries of heads that agree on the heads of a canonical tree give it the same denotation.
pub fn used_heads_count()
    ensures law { UsedHeadsCount }
{}

/// The entry of each value of a file is what its term denotes, where all values of the file are heads.
pub fn file_entries_denote()
    ensures law { FileEntriesDenote }
{}
