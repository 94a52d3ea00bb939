//! The premises of typing that ask for a context, an environment or a monotype alone: what stands at an index, whether there is room
//! for further entries, whether a monotype is formed and within its limit, what a number was declared for. Each call answers what the premise comes
//! to (`theory_checking`): what it gives, or the word and the byte of its refusal, or the limit that was passed. A
//! context is given as its entries, the outermost first, so that what stands under a binder is asked with one entry
//! more at the end.
#![tactic(auto)]

mod declared;
mod entries;
mod monotypes;
mod stop;

pub use declared::{definition, predicate, value_type};
pub use entries::{entry_at, entry_type, is_heap, room};
pub use monotypes::{comparable, monotype, narrow};
pub use stop::TypeStop;

#[cfg(test)]
mod tests;
