//! Whether a term is canonical at a skeleton. First what stands around a place, then answers that are told of parts,
//! then the cases on monotypes, on terms, on computations, on types and on formulas. A term is looked at once, whether
//! it is canonical or not, so that the work grows with its nodes and with the binders around them.
#![tactic(auto)]

mod answers;
mod computations;
mod context;
mod decision;
mod folding;
mod formulas;
mod mono;
mod terms;
mod types;

pub use decision::is_canonical;

#[cfg(test)]
mod tests;
