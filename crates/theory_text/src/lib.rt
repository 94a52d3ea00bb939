//! What the phrases of a text stand for, or the first event that stops them.
#![tactic(auto)]
