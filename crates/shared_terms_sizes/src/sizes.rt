//! The column.

/// The sizes of the first rows of a table.
#[derive(Drop)]
pub struct Sizes {
    pub nodes: Vec<u64>,
}
