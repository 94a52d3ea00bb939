//! The names that a file declares and what each of them stands for, and why a text is refused for its names or for
//! the size of its trees. What stands for a whole file is above, and so are the calls that make it.
#![tactic(auto)]

mod names;
mod stop;

pub use names::{Declared, Meaning, Names};
pub use stop::NameStop;
