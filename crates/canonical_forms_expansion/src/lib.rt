//! Eta-expansions: a neutral term, written out as the function or computation that its type says. Under each
//! binder that the type has, the term goes past one more entry, and so does the argument's type, which is
//! written out in its turn.
#![tactic(auto)]

mod expansion;

pub use expansion::expand;

#[cfg(test)]
mod tests;
