//! One walk over the trees, with what it puts for variables as an action, and the copy of a tree.
//! The walk over types, terms, computations and formulas is one recursion, in four files; that over
//! proofs and their statements is another above it. A function for each type is one call of a
//! constructor for each form of node; those for boxes and lists are apart, since a constructor takes
//! its parts as results. What stands under binders is walked with the depth raised by their count; a
//! depth past 32 bits answers want of memory.
#![tactic(auto)]

mod action;
mod computations;
mod copy;
mod formulas;
mod mono;
mod proof_copy;
mod proof_parts;
mod proofs;
mod terms;
mod types;

pub use action::Action;
pub use computations::{walk_comp, walk_fix, walk_step};
pub use copy::{Keep, copy_comp, copy_formula, copy_mono, copy_term, copy_ty};
pub use formulas::walk_formula;
pub use mono::walk_mono;
pub use proof_copy::copy_proof;
pub use proof_parts::walk_arg;
pub use proofs::{walk_proof, walk_stmt};
pub use terms::walk_term;
pub use types::{walk_triple, walk_ty};
