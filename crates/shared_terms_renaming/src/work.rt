//! What was asked, and what is done.

use crate::renaming::Renaming;
use shared_terms_table::Table;
use std::collections::HashMap;

/// A renaming of what stands at a place.
#[derive(Clone, Copy, PartialEq, Eq, Hash)]
pub struct Task {
    pub renaming: Renaming,
    pub place: usize,
}

/// A table, and the renamings that were made in it.
#[derive(Drop)]
pub struct Work {
    pub table: Table,
    pub done: HashMap<Task, usize>,
}
