//! What the declarations of a file stand for: its items and its names, or the first event that stops them.
#![tactic(auto)]
