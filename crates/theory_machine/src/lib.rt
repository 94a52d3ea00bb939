//! Laws of the written machine for valid code: a run never leaves its code or its locals, and it asks
//! for a location only where an `alloc` has none to choose. Each function has no body and states a law
//! by its contract.
#![tactic(auto)]

mod laws;

pub use laws::{asks_only_at_alloc, frames_keep_fitting, shipped_choices_suffice};
