//! A node from its parts, each of which is given as the result of its making. A call answers the
//! node where all parts were made, and `AllocError` where one wasn't; it takes no memory. So a
//! function that makes a tree from a tree is one call for each form of node. Types, terms, steps and
//! formulas come first, then proofs and their statements.
#![tactic(auto)]

mod formulas;
mod proofs;
mod steps;
mod terms;
mod types;

pub use formulas::{
    formula_all_h, formula_all_t, formula_and, formula_at, formula_block, formula_cell,
    formula_emp, formula_eq, formula_ex_h, formula_ex_t, formula_imp, formula_join, formula_or,
    formula_rec, formula_same,
};
pub use proofs::{
    proof_absurd, proof_app, proof_at, proof_axiom, proof_block, proof_both, proof_case,
    proof_first, proof_give, proof_induct, proof_inst, proof_left, proof_lem, proof_rewrite,
    proof_right, proof_second, proof_split, proof_the, proof_unfold, stmt_at, stmt_have, stmt_open,
};
pub use steps::{comp, fix, step_alloc, step_claim, step_free, step_get, step_run, step_set};
pub use terms::{
    term_ann, term_app, term_at, term_bin, term_eq, term_fst, term_inst, term_lam, term_lam_t,
    term_made, term_not, term_pair, term_sel, term_snd,
};
pub use types::{mono_pair, triple, ty_all, ty_at, ty_fun, ty_mono};
