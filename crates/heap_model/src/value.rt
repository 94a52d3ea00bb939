//! The values of closed monotypes.

use sqlite_items::Boxed;

/// A value: a word, a truth value, a location, the unit value, or a pair of values.
#[derive(Debug, Drop)]
pub enum Value {
    Word(u64),
    Bool(bool),
    /// A location; 0 is `null`.
    Loc(u64),
    Unit,
    Pair(Boxed<Value>, Boxed<Value>),
}
