//! Shifts of trees: each free variable from a place on goes past further entries. A shift is the walk that
//! puts each variable where the shift says; the walk counts the binders around, and the variables of these
//! stay.
#![tactic(auto)]

mod past;
mod shifts;

pub use past::Past;
pub use shifts::{shift_comp, shift_formula, shift_mono, shift_proof, shift_term, shift_ty};
