//! What is printed of types, terms, formulas and proofs.
#![tactic(auto)]
