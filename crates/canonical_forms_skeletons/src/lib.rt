//! Skeletons of types: what is left of a type when its monotypes and formulas are forgotten. First the
//! skeletons as a type, then that of a type, a copy, and whether two are the same.
#![tactic(auto)]

mod form;
mod skeleton;

pub use form::{copy_skeleton, same_skeletons, skeleton_of};
pub use skeleton::{Skeleton, skeleton_all, skeleton_arrow};

#[cfg(test)]
mod tests;
