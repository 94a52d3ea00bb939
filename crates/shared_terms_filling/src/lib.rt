//! Monotypes put for monotype variables on rows, slot by slot, whatever the form; what comes to be an operation on
//! literals of its own monotype is folded. What was filled is remembered, so that each row is filled once under as
//! many binders, however often it is used.
#![tactic(auto)]

ghost use Rattle.std.specs.Prelude.{◌≡◌, ◌<◌, ◌≤◌, length, true, IfOk, IfSome};
ghost use Rattle.shared_terms_rows.specs.Rows.{bound, fits, node, RowIs, Extends};
ghost use Rattle.shared_terms_renaming.specs.Known.{held, Known, Renames};
ghost use Rattle.shared_terms_folding.specs.Folded.{Stands};
ghost use Rattle.theory_rows_substitution.specs.Substitution.{fold_part};
ghost use Rattle.shared_terms_filling.specs.Filled.{stood, KnownFilled, Fills, IsMono, IsUnder, Raises};

mod walk;
mod work;

use shared_terms_folding::fold;
use shared_terms_renaming::{Renaming, Work};
use shared_terms_rows::Row;
use std::alloc::{AllocError, Global};
use std::collections::HashMap;
pub use work::{FillTask, FillWork};

impl FillWork {
    /// Nothing is filled yet. It takes no memory.
    #[tactic(auto, unfolding(crate::specs::Filled::stood, crate::specs::Filled::KnownFilled))]
    pub fn on(alloc: Global, work: Work) -> FillWork
        requires known { Known work }
        ensures known { KnownFilled result }
        ensures kept { stood result ≡ held work }
    {
        FillWork {
            work,
            done: HashMap::new(alloc),
        }
    }

    /// The row at the place, which is below the count of rows.
    #[tactic(auto, unfolding(crate::specs::Filled::stood))]
    pub fn row(&self, place: usize) -> Row
        requires within { place < length (stood self.now) }
        ensures row { RowIs (stood self.now) place result }
    {
        self.work.row(place)
    }

    /// The place of what stands at `place`, renamed. It fails for want of memory, or where an index would pass
    /// 32 bits.
    #[tactic(auto, using(crate::proofs::Grows::filled_kept), unfolding(crate::specs::Filled::stood))]
    pub fn rename(&mut self, renaming: Renaming, place: usize) -> Result<usize, AllocError>
        requires known { KnownFilled self.old }
        requires within { place < length (stood self.old) }
        ensures known { KnownFilled self.new }
        ensures kept { Extends (stood self.old) (stood self.new) }
        ensures renamed { IfOk result (λ r. Renames (stood self.new) renaming place r) }
    {
        self.work.rename(renaming, place)
    }

    /// The place of what stands at `place`, under so many more binders, whose variables it doesn't have. It fails for
    /// want of memory, or where an index would pass 32 bits.
    pub fn raise(&mut self, place: usize, binders: u32) -> Result<usize, AllocError>
        requires known { KnownFilled self.old }
        requires within { place < length (stood self.old) }
        ensures known { KnownFilled self.new }
        ensures kept { Extends (stood self.old) (stood self.new) }
        ensures raised { IfOk result (λ r. Raises (stood self.new) binders place r) }
    {
        if binders == 0 {
            return Ok(place);
        }
        let below = self.raise(place, binders - 1)?;
        self.rename(Renaming::Past(0), below)
    }

    /// The task under so many more binders, for what stands at the place. It fails for want of memory, or where an
    /// index would pass 32 bits.
    #[tactic(auto, using(crate::proofs::Grows::mono_kept, crate::proofs::Fillings::raised_is_mono))]
    fn under(&mut self, task: FillTask, binders: u32, place: usize) -> Result<FillTask, AllocError>
        requires known { KnownFilled self.old }
        requires mono { IsMono (stood self.old) task.mono }
        ensures known { KnownFilled self.new }
        ensures kept { Extends (stood self.old) (stood self.new) }
        ensures mono { IfOk result (λ t. IsMono (stood self.new) t.mono) }
        ensures place { IfOk result (λ t. t.place ≡ place) }
        ensures under { IfOk result (λ t. IsUnder (stood self.new) task binders t) }
    {
        let mono = self.raise(task.mono, binders)?;
        let index = task.index.checked_add(binders).ok_or(AllocError)?;
        Ok(FillTask { mono, index, place })
    }

    /// The place of what the row is folded to, or of the row itself, which is put last where it isn't there. It fails
    /// for want of memory alone.
    #[tactic(auto, using(crate::proofs::Grows::filled_kept), unfolding(crate::specs::Filled::stood))]
    pub fn fold(&mut self, row: Row) -> Result<usize, AllocError>
        requires known { KnownFilled self.old }
        requires behind { bound row ≤ length (stood self.old) }
        requires fitting { fits (stood self.old) row ≡ true }
        ensures known { KnownFilled self.new }
        ensures kept { Extends (stood self.old) (stood self.new) }
        ensures folded { IfOk result (λ place. Stands (stood self.new) place (fold_part (node (stood self.old) row))) }
    {
        fold(&mut self.work, row)
    }

    /// What is known of a task.
    #[tactic(auto, unfolding(crate::specs::Filled::KnownFilled))]
    fn look(&self, task: FillTask) -> Option<usize>
        requires known { KnownFilled self.now }
        ensures done { IfSome result (λ r. Fills (stood self.now) task r) }
    {
        self.done.get(&task).copied()
    }

    fn note(&mut self, task: FillTask, filled: usize) -> Result<(), AllocError>
        requires known { KnownFilled self.old }
        requires done { Fills (stood self.old) task filled }
        ensures known { KnownFilled self.new }
        ensures kept { stood self.new ≡ stood self.old }
    {
        self.done.insert(task, filled)?;
        Ok(())
    }
}
