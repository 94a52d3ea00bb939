//! The size of a tree, and what it would be with something put for its variables: counted without making that tree,
//! 2^64 - 1 where it is more. So what is put may be told by its size alone, and an expansion past the limits takes no
//! memory. First sizes and how that of a node comes from those of its parts, then one read-only recursion over types,
//! terms, computations and formulas, in the shape of the walk that makes the tree; the size of a tree as it is comes
//! from putting each variable for itself.
#![tactic(auto)]

mod computations;
mod depths;
mod formulas;
mod mono;
mod own;
mod size;
mod sizes;
mod terms;
#[cfg(test)]
mod tests;
mod types;

pub use formulas::measure_formula;
pub use mono::measure_mono;
pub use own::{size_of_comp, size_of_formula, size_of_mono, size_of_term, size_of_ty};
pub use size::Size;
pub use sizes::Sizes;
pub use terms::measure_term;
pub use types::measure_ty;
