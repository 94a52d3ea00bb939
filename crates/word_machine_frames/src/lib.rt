//! The frames of the word machine, flat: the locals of all active frames stand in one vector of
//! words, one frame after the other, beside a small vector that says where each frame begins. No
//! frame is allocated, cloned or copied by an instruction; only a call makes the vectors grow.
#![tactic(auto)]

mod copy;
mod frames;

pub use frames::Frames;
