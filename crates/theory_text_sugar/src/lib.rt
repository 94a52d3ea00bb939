//! What the sugars of a text stand for.
#![tactic(auto)]
