//! A predicate's body where the predicate is used: its size, from the sizes of what is put into it, and the body itself.
//! What stands for the monotypes, the parameters and the heap is put in by the one walk, as an action, so that no
//! binder of the body captures what is put. What is put comes in this order: the monotypes, then for each parameter
//! its argument with the parameter's monotype, then the heap.
#![tactic(auto)]

mod measure;
mod places;
mod puts;
#[cfg(test)]
mod tests;

pub use measure::{PutSize, body_size, put_argument_size};
pub use puts::{Put, body_with, put_argument};
