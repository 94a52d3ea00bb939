//! The scope of a place in a text: its bytes, the declared names that are visible there, and the binders around it.
//! First names as bytes, then what is in scope, then what a name stands for there and whether that is what its place
//! needs. A scope isn't changed by what stands under a binder: that has a scope of its own.
#![tactic(auto)]

mod heaps;
mod local;
mod named;
mod names;
mod scope;
#[cfg(test)]
mod tests;
mod uses;

pub use local::{Local, Sort};
pub use named::{MonoUse, PredUse};
pub use names::{is_reserved, name_bytes};
pub use scope::Scope;
pub use uses::Use;
