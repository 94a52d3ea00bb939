//! The one form of a file that is run so far: a program that returns a number or the sum of two, with
//! a claim on its result and the proof of the claim.
//!
//! The declarations are compared with those of the form, from the outside to the inside: each
//! function looks at one level of a tree. What the declarations of the form are stands in
//! `specs/Form.antt`.
#![tactic(auto)]

mod form;
mod formulas;
mod laws;
mod names;
mod proofs_of_claims;
mod terms;

pub use form::{Form, form_of};
pub use laws::{example_form, one_meaning};
