//! The filling of a row, slot by slot.

ghost use Rattle.std.specs.Prelude.{◌≡◌, ◌<◌, ◌≤◌, length, None, IfOk};
ghost use Rattle.shared_terms_rows.specs.Rows.{behind, Extends, RowIs};
ghost use Rattle.shared_terms_filling.specs.Filled.{stood, KnownFilled, Fills, FillsSlot, IsMono, variable_in};

use crate::work::{FillTask, FillWork};
use shared_terms_renaming::Renaming;
use shared_terms_rows::{Form, MonoForm, Row, Slot, slots_of};
use std::alloc::AllocError;

impl FillWork {
    /// The place of what stands at the task's place, with the task's monotype put for its variable, and the gap
    /// closed. It fails for want of memory, or where an index would pass 32 bits.
    #[cycle(fill)]
    pub fn fill(&mut self, task: FillTask) -> Result<usize, AllocError>
        requires known { KnownFilled self.old }
        requires mono { IsMono (stood self.old) task.mono }
        requires within { task.place < length (stood self.old) }
        ensures known { KnownFilled self.new }
        ensures kept { Extends (stood self.old) (stood self.new) }
        ensures filled { IfOk result (λ r. Fills (stood self.new) task r) }
    {
        match self.look(task) {
            Some(filled) => Ok(filled),
            None => {
                let filled = self.fill_anew(task)?;
                self.note(task, filled)?;
                Ok(filled)
            }
        }
    }

    #[cycle(fill)]
    fn fill_anew(&mut self, task: FillTask) -> Result<usize, AllocError>
        requires known { KnownFilled self.old }
        requires mono { IsMono (stood self.old) task.mono }
        requires within { task.place < length (stood self.old) }
        ensures known { KnownFilled self.new }
        ensures kept { Extends (stood self.old) (stood self.new) }
        ensures filled { IfOk result (λ r. Fills (stood self.new) task r) }
    {
        let row = self.row(task.place);
        match variable_of(row.form) {
            Some(index) => {
                if index == task.index {
                    Ok(task.mono)
                } else {
                    self.rename(Renaming::Closing(task.index), task.place)
                }
            }
            None => self.fill_slots(task, row),
        }
    }

    // The row with its slots filled, folded if it can be.
    #[cycle(fill)]
    fn fill_slots(&mut self, task: FillTask, row: Row) -> Result<usize, AllocError>
        requires known { KnownFilled self.old }
        requires mono { IsMono (stood self.old) task.mono }
        requires row { RowIs (stood self.old) task.place row }
        requires form { variable_in row.form ≡ None }
        ensures known { KnownFilled self.new }
        ensures kept { Extends (stood self.old) (stood self.new) }
        ensures filled { IfOk result (λ r. Fills (stood self.new) task r) }
    {
        let slots = slots_of(row.form);
        let form = Renaming::Closing(task.index).form(row.form)?;
        let first = self.fill_slot(task, slots.first, row.first)?;
        let second = self.fill_slot(task, slots.second, row.second)?;
        let third = self.fill_slot(task, slots.third, row.third)?;
        let fourth = self.fill_slot(task, slots.fourth, row.fourth)?;
        self.fold(Row {
            form,
            first,
            second,
            third,
            fourth,
        })
    }

    // What stands in the slot, filled under the slot's binders.
    #[cycle(fill)]
    fn fill_slot(
        &mut self,
        task: FillTask,
        slot: Option<Slot>,
        place: usize,
    ) -> Result<usize, AllocError>
        requires known { KnownFilled self.old }
        requires mono { IsMono (stood self.old) task.mono }
        requires within { behind slot place ≤ length (stood self.old) }
        ensures known { KnownFilled self.new }
        ensures kept { Extends (stood self.old) (stood self.new) }
        ensures filled { IfOk result (λ r. FillsSlot (stood self.new) task slot place r) }
    {
        match slot {
            Some(slot) => {
                let under = self.under(task, slot.binders, place)?;
                self.fill(under)
            }
            None => Ok(0),
        }
    }
}

// The index of the monotype variable, if the form is one.
fn variable_of(form: Form) -> Option<u32>
    ensures variable { result ≡ variable_in form }
{
    match form {
        Form::Mono(MonoForm::Var(index)) => Some(index),
        _ => None,
    }
}
