//! What a key denotes: what the call does whose key it is. A function without a body states laws by its
//! contract.
#![tactic(auto)]

ghost use Rattle.theory_instances_keys.specs.Laws.{KeysDenote, OnlyMetCount};

/// Valuations that agree at the variables that occur in a tree give it the same denotation.
pub fn only_met_count()
    ensures law { OnlyMetCount }
{}

/// Where the variables have values, a head and its fixed arguments denote what the head and the fixed
/// arguments of their key do with the values of the captured variables.
pub fn keys_denote()
    ensures law { KeysDenote }
{}
