//! A row of the table.

use htt_syntax::Sequent;

/// How far an obligation is.
#[derive(Clone, Copy, Debug, PartialEq, Eq)]
pub enum State {
    /// No proof of the file is for it.
    Free,
    /// The file leaves it to the provers.
    Left,
    /// It has a proof.
    Proved,
}

/// An obligation: the number of the item that owes it, counted from 0, its own number, counted from 1 in each
/// item, what is owed, and how far it is.
#[derive(Drop)]
pub struct Row {
    pub item: u32,
    pub number: u64,
    pub sequent: Sequent,
    pub state: State,
}
