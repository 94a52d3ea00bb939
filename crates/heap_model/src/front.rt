//! A value at the front of words, which the next part of a pair follows.

use crate::value::Value;

/// A value, and how many words it takes.
#[derive(Drop)]
pub(crate) struct Front {
    pub value: Value,
    pub len: usize,
}
