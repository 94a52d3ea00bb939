//! Atoms of terms, and what is made of them by applications, products, sums and comparisons. Each
//! function answers what the written reader of its production answers at a level.
#![tactic(auto)]

mod atoms;
mod chains;
mod operands;
mod signs;

pub use operands::Operands;
