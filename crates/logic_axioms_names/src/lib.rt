//! The names of the axioms. First the axioms as a type, then the table of their names, in which a text is looked
//! up. What an axiom takes and says is in the crates above, which needn't know a name.
#![tactic(auto)]

mod axiom;
mod names;

pub use axiom::Axiom;
pub use names::named;

#[cfg(test)]
mod tests;
