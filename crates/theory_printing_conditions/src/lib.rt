//! Which trees have a text in a scope: the conditions under which what is printed of them is read back.
#![tactic(auto)]
