//! The shapes of the axioms: what each takes. First the sorts of arguments and the words of refusal, then the side
//! conditions on monotypes, then the kinds of signature, and last one row for each axiom, which gives the kind and
//! the sorts as the documents write them.
#![tactic(auto)]

mod rows;
mod signatures;
mod slots;
mod sort;
mod widths;

pub use logic_axioms_names::{Axiom, named};
pub use rows::shape;
pub use sort::{ArgSort, AxiomStop};

#[cfg(test)]
mod tests;
