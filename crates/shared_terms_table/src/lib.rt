//! A table of rows, in which each different row stands once, behind its parts. Contracts see the list of what the
//! rows stand for; a place of the table is a place in this list, and what stands somewhere stays there.
#![tactic(auto)]

ghost use Rattle.std.specs.Prelude.{◌≡◌, ◌<◌, ◌≤◌, [], length, true, IfOk};
ghost use Rattle.shared_terms_rows.specs.Rows.{bound, fits, RowIs, Extends, Once};
ghost use Rattle.shared_terms_table.specs.View.{parts_of, Appends};

mod table;

use indexmap::IndexSet;
use shared_terms_rows::Row;
use std::alloc::{AllocError, Global};
pub use table::Table;

impl Table {
    /// An empty table. It takes no memory.
    pub fn new(alloc: Global) -> Table
        ensures empty { parts_of result ≡ [] }
    {
        Table {
            rows: IndexSet::new(alloc),
        }
    }

    /// How many rows the table has.
    #[tactic(auto, using(crate::proofs::Facts::counted))]
    pub fn count(&self) -> usize
        ensures count { result ≡ length (parts_of self.now) }
    {
        self.rows.len()
    }

    /// The row at the place, which is below the count.
    pub fn row(&self, place: usize) -> Row
        requires within { place < length (parts_of self.now) }
        ensures row { RowIs (parts_of self.now) place result }
    {
        self.rows.as_slice()[place]
    }

    /// The place of the row, which is put last where it isn't there. Its parts stand in the table, and are of the
    /// kinds of its slots. Different places stand for different parts. It fails for want of memory alone.
    pub fn push(&mut self, row: Row) -> Result<usize, AllocError>
        requires behind { bound row ≤ length (parts_of self.old) }
        requires fitting { fits (parts_of self.old) row ≡ true }
        ensures made { IfOk result (λ place. RowIs (parts_of self.new) place row) }
        ensures appends { Appends (parts_of self.old) row (parts_of self.new) }
        ensures kept { Extends (parts_of self.old) (parts_of self.new) }
        ensures once { Once (parts_of self.new) }
    {
        let (place, _) = self.rows.insert_full(row)?;
        Ok(place)
    }
}

#[cfg(test)]
mod tests;
