//! Sorts as the table of shapes writes them.

ghost use Rattle.std.specs.Prelude.{◌≡◌, IfOk, map};
ghost use Rattle.htt_syntax.specs.Views.{mono_tree};
ghost use Rattle.logic_axioms_shapes.specs.Views.{arg_sort};
ghost use Rattle.logic_axioms_shapes.specs.Slots.{slot_sort};

use crate::sort::ArgSort;
use htt_syntax::Mono;
use htt_syntax_walk::copy_mono;
use std::alloc::{AllocError, Global};

/// The sort of an argument: a heap, a term of one monotype, or with `Value` of the monotype that is given beside it.
#[derive(Clone, Copy, Debug, PartialEq, Eq)]
pub enum Slot {
    Heap,
    Place,
    Word,
    Truth,
    Unit,
    Value,
}

#[tactic(auto, using(htt_syntax::specs::Levels::mono_levels))]
fn sort_of(alloc: Global, slot: Slot, value: &Mono) -> Result<ArgSort, AllocError>
    ensures { IfOk result (λ sort. arg_sort sort ≡ slot_sort (mono_tree value.now) slot) }
{
    match slot {
        Slot::Heap => Ok(ArgSort::Heap),
        Slot::Place => Ok(ArgSort::Term(Mono::Loc)),
        Slot::Word => Ok(ArgSort::Term(Mono::Word)),
        Slot::Truth => Ok(ArgSort::Term(Mono::Bool)),
        Slot::Unit => Ok(ArgSort::Term(Mono::Unit)),
        Slot::Value => copy_mono(alloc, value).map(|mono| ArgSort::Term(mono)),
    }
}

/// The sorts that the slots stand for, in order, with this monotype as that of values.
pub fn sorts_of(alloc: Global, slots: &[Slot], value: &Mono) -> Result<Vec<ArgSort>, AllocError>
    ensures { IfOk result (λ sorts. map arg_sort sorts.items ≡ map (slot_sort (mono_tree value.now)) slots.now) }
{
    let mut sorts = Vec::new(alloc);
    for slot in slots {
        sorts.push(sort_of(alloc, *slot, value)?)?;
    }
    Ok(sorts)
}
