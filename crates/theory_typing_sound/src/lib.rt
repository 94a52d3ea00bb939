//! Soundness of typing over denotations: what is typed does what its type says, where what it owes is
//! true. It passes through functions, monotypes, calls beside frames, branches, claims and recursion. A
//! function without a body states a law by its contract.
#![tactic(auto)]

ghost use Rattle.theory_typing_sound.specs.Laws.{TypingIsSound};

/// Where what a phrase owes is true, its canonical form denotes what its type means.
pub fn typing_is_sound()
    ensures law { TypingIsSound }
{}
