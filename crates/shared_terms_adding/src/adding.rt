//! The walk that adds a tree.

ghost use Rattle.std.specs.Prelude.{IfOk};
ghost use Rattle.shared_terms_table.specs.View.{parts_of};
ghost use Rattle.shared_terms_adding.specs.Views.{part_of, part_in};
ghost use Rattle.shared_terms_adding.specs.Added.{GrowsBy, GrowsBySlot, StandsWhole, StandsInSlot};

use crate::tree::Tree;
use shared_terms_rows::Row;
use shared_terms_table::Table;
use std::alloc::AllocError;

/// The place of the tree. The tree and what is in it are put last where they aren't there, each once, and nothing
/// else is; also where memory is wanting, for which alone it fails.
#[cycle(add)]
pub fn add(table: &mut Table, tree: Tree<'_>) -> Result<usize, AllocError>
    ensures grows { GrowsBy (part_of tree.entry) (parts_of table.old) (parts_of table.new) }
    ensures stands { IfOk result (λ place. StandsWhole (parts_of table.new) (part_of tree.entry) place) }
{
    let first = add_slot(table, tree.first())?;
    let second = add_slot(table, tree.second())?;
    let third = add_slot(table, tree.third())?;
    let fourth = add_slot(table, tree.fourth())?;
    table.push(Row {
        form: tree.form(),
        first,
        second,
        third,
        fourth,
    })
}

/// The place of the tree in the slot, or 0 where the form has no such slot.
#[cycle(add)]
fn add_slot(table: &mut Table, slot: Option<Tree<'_>>) -> Result<usize, AllocError>
    ensures grows { GrowsBySlot (part_in slot.entry) (parts_of table.old) (parts_of table.new) }
    ensures stands { IfOk result (λ place. StandsInSlot (parts_of table.new) (part_in slot.entry) place) }
{
    match slot {
        Some(tree) => add(table, tree),
        None => Ok(0),
    }
}
