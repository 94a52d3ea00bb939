//! Renaming on rows: a tree of the table with other indices, built slot by slot, whatever its form. What was
//! renamed is remembered, so that each row is renamed once under as many binders, however often it is used.
#![tactic(auto)]

ghost use Rattle.std.specs.Prelude.{◌≡◌, ◌<◌, ◌≤◌, length, true, IfOk, IfSome};
ghost use Rattle.shared_terms_rows.specs.Rows.{bound, fits, RowIs, Extends};
ghost use Rattle.shared_terms_table.specs.View.{Appends};
ghost use Rattle.shared_terms_renaming.specs.Known.{held, Known, Renames};

mod forms;
mod renaming;
mod walk;
mod work;

pub use renaming::Renaming;
use shared_terms_rows::Row;
use shared_terms_table::Table;
use std::alloc::{AllocError, Global};
use std::collections::HashMap;
pub use work::{Task, Work};

impl Work {
    /// Nothing is done yet on this table. It takes no memory.
    #[tactic(auto, unfolding(crate::specs::Known::held, crate::specs::Known::Known))]
    pub fn on(alloc: Global, table: Table) -> Work
        ensures known { Known result }
    {
        Work {
            table,
            done: HashMap::new(alloc),
        }
    }

    /// The row at the place, which is below the count.
    #[tactic(auto, unfolding(crate::specs::Known::held))]
    pub fn row(&self, place: usize) -> Row
        requires within { place < length (held self.now) }
        ensures row { RowIs (held self.now) place result }
    {
        self.table.row(place)
    }

    /// The place of the row, which is put last where it isn't there.
    #[tactic(auto, unfolding(crate::specs::Known::held))]
    pub fn push(&mut self, row: Row) -> Result<usize, AllocError>
        requires known { Known self.old }
        requires behind { bound row ≤ length (held self.old) }
        requires fitting { fits (held self.old) row ≡ true }
        ensures known { Known self.new }
        ensures kept { Extends (held self.old) (held self.new) }
        ensures made { IfOk result (λ place. RowIs (held self.new) place row) }
    {
        self.table.push(row)
    }

    /// What is known of a task.
    #[tactic(auto, unfolding(crate::specs::Known::Known))]
    fn look(&self, task: Task) -> Option<usize>
        requires known { Known self.now }
        ensures done { IfSome result (λ r. Renames (held self.now) task.renaming task.place r) }
    {
        self.done.get(&task).copied()
    }

    #[tactic(auto, unfolding(crate::specs::Known::held, crate::specs::Known::Known))]
    fn note(&mut self, task: Task, renamed: usize) -> Result<(), AllocError>
        requires known { Known self.old }
        requires done { Renames (held self.old) task.renaming task.place renamed }
        ensures known { Known self.new }
        ensures kept { held self.new ≡ held self.old }
    {
        self.done.insert(task, renamed)?;
        Ok(())
    }
}

#[cfg(test)]
mod tests;
