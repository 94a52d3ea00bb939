//! Terms whose root is computed where it can be: an operation on literals of its own monotypes, a part of a pair, a
//! choice by a truth literal. Each call puts a term together from its parts and answers it folded; nothing below the
//! root is looked at again, since parts come folded.
#![tactic(auto)]

mod literals;
mod terms;

pub use terms::{folded_bin, folded_eq, folded_fst, folded_not, folded_sel, folded_snd};

#[cfg(test)]
mod tests;
