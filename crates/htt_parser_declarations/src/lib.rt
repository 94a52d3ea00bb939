//! Declarations: each function answers what the written reader of its production answers. What stands
//! in a declaration is read at its own level, and there may be so many levels and declarations as a
//! text has within the limits.
#![tactic(auto)]

mod bodies;
mod declarations;
mod file;
mod parameters;
mod predicates;

pub use declarations::Declarations;
