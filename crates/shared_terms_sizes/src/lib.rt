//! The sizes of what a table's rows stand for, a column beside the table. A row's size is its form's own node
//! and the sizes of its parts, which stand before it; nothing is built for it.
#![tactic(auto)]

ghost use Rattle.std.specs.Prelude.{◌≡◌, ◌<◌, [], length, OnOk};
ghost use Rattle.shared_terms_rows.specs.Rows.{at};
ghost use Rattle.shared_terms_table.specs.View.{parts_of};
ghost use Rattle.theory_rows_counts.specs.Counts.{nodes_part};
ghost use Rattle.theory_saturation.specs.Saturation.{saturated};
ghost use Rattle.shared_terms_sizes.specs.Sized.{Sized, sizes_of};

mod row;
mod sizes;

use row::row_size;
use shared_terms_table::Table;
pub use sizes::Sizes;
use std::alloc::{AllocError, Global};

impl Sizes {
    /// No sizes. It takes no memory.
    pub fn new(alloc: Global) -> Sizes
        ensures empty { sizes_of result ≡ [] }
    {
        Sizes {
            nodes: Vec::new(alloc),
        }
    }

    /// The sizes of the rows that the table has more than there are sizes. It fails for want of memory alone.
    pub fn follow(&mut self, table: &Table) -> Result<(), AllocError>
        requires sized { Sized (parts_of table.now) (sizes_of self.old) }
        ensures sized { Sized (parts_of table.now) (sizes_of self.new) }
        ensures whole { OnOk result (length (sizes_of self.new) ≡ length (parts_of table.now)) }
    {
        for place in self.nodes.len()..table.count() {
            let size = row_size(self.nodes.as_slice(), table.row(place));
            self.nodes.push(size)?;
        }
        Ok(())
    }

    /// The count of nodes of what stands at the place, or 2^64 - 1 where it has more. It asks for a place below the
    /// count of sizes.
    pub fn of(&self, table: &Table, place: usize) -> u64
        requires sized { Sized (parts_of table.now) (sizes_of self.now) }
        requires within { place < length (sizes_of self.now) }
        ensures nodes { result ≡ saturated (nodes_part (at (parts_of table.now) place)) }
    {
        self.nodes[place]
    }
}

#[cfg(test)]
mod tests;
