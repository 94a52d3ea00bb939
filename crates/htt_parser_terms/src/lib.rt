//! Terms, computations and types. Each function answers what the written reader of its production
//! answers at a level; lists of parameters, arguments and steps are read by loops.
#![tactic(auto)]

mod computations;
mod readers;
mod terms;
mod types;

pub use readers::Terms;
