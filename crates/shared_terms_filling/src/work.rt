//! What was asked, and what is done.

use shared_terms_renaming::Work;
use std::collections::HashMap;

/// The monotype at a place put for a variable of what stands at another.
#[derive(Clone, Copy, PartialEq, Eq, Hash)]
pub struct FillTask {
    /// Where the monotype stands.
    pub mono: usize,
    /// The variable's index.
    pub index: u32,
    /// Where that stands in which the monotype is put.
    pub place: usize,
}

/// A table with the renamings and the fillings that were made in it.
#[derive(Drop)]
pub struct FillWork {
    pub work: Work,
    pub done: HashMap<FillTask, usize>,
}
