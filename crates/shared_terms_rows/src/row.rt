//! Rows.

use crate::form::Form;

/// A form with the places of its parts in a table. Where the form has fewer than four slots, the places that
/// are left over are 0.
#[derive(Clone, Copy, PartialEq, Eq, Hash)]
pub struct Row {
    pub form: Form,
    pub first: usize,
    pub second: usize,
    pub third: usize,
    pub fourth: usize,
}
