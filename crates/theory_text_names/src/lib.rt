//! Scopes of a text: what stands for each name at each place, and which heap is the current one.
#![tactic(auto)]
