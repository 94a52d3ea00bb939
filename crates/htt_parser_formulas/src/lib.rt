//! Formulas: what is no chain, the chains, implications and quantifiers. Each function answers what
//! the written reader of its production answers at a level.
#![tactic(auto)]

mod fatoms;
mod formulas;
mod readers;

pub use readers::Formulas;
