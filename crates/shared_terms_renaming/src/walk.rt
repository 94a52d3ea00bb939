//! The renaming of a row, slot by slot.

ghost use Rattle.std.specs.Prelude.{◌≡◌, ◌<◌, ◌≤◌, length, IfOk};
ghost use Rattle.shared_terms_rows.specs.Rows.{behind, Extends};
ghost use Rattle.shared_terms_renaming.specs.Known.{held, Known, Renames, RenamesSlot};

use crate::renaming::Renaming;
use crate::work::{Task, Work};
use shared_terms_rows::{Row, Slot, slots_of};
use std::alloc::AllocError;

impl Work {
    /// The place of what stands at `place`, renamed. It fails for want of memory, or where an index would pass
    /// 32 bits.
    #[cycle(rename)]
    pub fn rename(&mut self, renaming: Renaming, place: usize) -> Result<usize, AllocError>
        requires known { Known self.old }
        requires within { place < length (held self.old) }
        ensures known { Known self.new }
        ensures kept { Extends (held self.old) (held self.new) }
        ensures renamed { IfOk result (λ r. Renames (held self.new) renaming place r) }
    {
        let task = Task { renaming, place };
        match self.look(task) {
            Some(renamed) => Ok(renamed),
            None => {
                let renamed = self.rename_anew(renaming, place)?;
                self.note(task, renamed)?;
                Ok(renamed)
            }
        }
    }

    #[cycle(rename)]
    fn rename_anew(&mut self, renaming: Renaming, place: usize) -> Result<usize, AllocError>
        requires known { Known self.old }
        requires within { place < length (held self.old) }
        ensures known { Known self.new }
        ensures kept { Extends (held self.old) (held self.new) }
        ensures renamed { IfOk result (λ r. Renames (held self.new) renaming place r) }
    {
        let row = self.row(place);
        let slots = slots_of(row.form);
        let form = renaming.form(row.form)?;
        let first = self.rename_slot(renaming, slots.first, row.first)?;
        let second = self.rename_slot(renaming, slots.second, row.second)?;
        let third = self.rename_slot(renaming, slots.third, row.third)?;
        let fourth = self.rename_slot(renaming, slots.fourth, row.fourth)?;
        self.push(Row {
            form,
            first,
            second,
            third,
            fourth,
        })
    }

    // What stands in the slot, renamed under the slot's binders.
    #[cycle(rename)]
    fn rename_slot(
        &mut self,
        renaming: Renaming,
        slot: Option<Slot>,
        place: usize,
    ) -> Result<usize, AllocError>
        requires known { Known self.old }
        requires within { behind slot place ≤ length (held self.old) }
        ensures known { Known self.new }
        ensures kept { Extends (held self.old) (held self.new) }
        ensures renamed { IfOk result (λ r. RenamesSlot (held self.new) renaming slot place r) }
    {
        match slot {
            Some(slot) => {
                let renaming = renaming.under(slot.binders)?;
                self.rename(renaming, place)
            }
            None => Ok(0),
        }
    }
}
