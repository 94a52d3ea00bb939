//! What a file stands for once its names are looked up: its items. The calls that make them stand above.
#![tactic(auto)]

mod item;

pub use item::{Item, Resolved};
