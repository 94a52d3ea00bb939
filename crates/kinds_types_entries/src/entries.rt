//! What stands in a context.

ghost use Rattle.std.specs.Prelude.{◌≡◌, suc, ◌+◌, ◌<◌, ◌≤◌, length, option_map, slice_get, IfOk, IfErr};
ghost use Rattle.std.specs.Bool.{OnTrue, OnFalse};
ghost use Rattle.htt_syntax.specs.Trees.{TyTree};
ghost use Rattle.htt_syntax.specs.Views.{ty_tree};
ghost use Rattle.htt_syntax_words.specs.declared.words.Rule.TheVariants as rules;
ghost use Rattle.theory_renaming.specs.Renaming.{shifting, rename_ty};
ghost use Rattle.theory_typing.specs.Contexts.{HasEntryType};
ghost use Rattle.theory_views.specs.Contexts.{entry_tree, context_of};
ghost use Rattle.theory_checking.specs.Stops.{refused, Finds};
ghost use Rattle.theory_checking.specs.Limits.{HasRoom};
ghost use Rattle.theory_checking.specs.Checking.{HeapComesTo};
ghost use Rattle.kinds_types_entries.specs.Standing.{is_heap_tree, is_mono_tree, term_tree_of};
ghost use Rattle.kinds_types_entries.specs.Answers.{Answers};
ghost use Rattle.kinds_types_entries.specs.declared.stop.TypeStop.TheVariants.{NoMemory};

use crate::stop::TypeStop;
use htt_syntax::{Entry, Rule, Ty, Which};
use htt_syntax_shift::shift_ty;
use std::alloc::Global;

/// The largest permitted number of entries.
const MOST_ENTRIES: usize = 4096;

/// The entry of this index, where that of the innermost is 0. It takes no memory.
#[tactic(auto, using(crate::proofs::Standing::entry_there, crate::proofs::Standing::entry_none))]
pub fn entry_at(entries: &[Entry], index: u32) -> Option<&Entry>
    ensures entry { option_map (λ e. entry_tree e.now) result ≡ slice_get (context_of entries.now) index }
{
    let place = entries.len().checked_sub(index as usize)?.checked_sub(1)?;
    Some(&entries[place])
}

/// Whether the variable of this index is a heap. It takes no memory.
fn heap_at(entries: &[Entry], index: u32) -> bool
    ensures stands { result ≡ is_heap_tree (slice_get (context_of entries.now) index) }
{
    match entry_at(entries, index) {
        Some(Entry::Heap) => true,
        Some(Entry::Mono) => false,
        Some(Entry::Term(_)) => false,
        None => false,
    }
}

/// Whether the variable of this index is a monotype. It takes no memory.
pub(crate) fn mono_at(entries: &[Entry], index: u32) -> bool
    ensures stands { result ≡ is_mono_tree (slice_get (context_of entries.now) index) }
{
    match entry_at(entries, index) {
        Some(Entry::Mono) => true,
        Some(Entry::Heap) => false,
        Some(Entry::Term(_)) => false,
        None => false,
    }
}

/// The type of the variable of this index as its entry has it, where it is a term. It takes no memory.
fn term_at(entries: &[Entry], index: u32) -> Option<&Ty>
    ensures stands { option_map (λ ty. ty_tree ty.now) result ≡ term_tree_of (slice_get (context_of entries.now) index) }
{
    match entry_at(entries, index) {
        Some(Entry::Term(ty)) => Some(ty),
        Some(Entry::Heap) => None,
        Some(Entry::Mono) => None,
        None => None,
    }
}

/// Whether the heap of this index is one of the context, at this byte: else the rule is `sort`. It takes no memory.
pub fn is_heap(entries: &[Entry], at: u64, index: u32) -> Result<(), TypeStop>
    ensures comes { Answers (λ u. u) (HeapComesTo (context_of entries.now) at index) result }
{
    if heap_at(entries, index) {
        Ok(())
    } else {
        Err(TypeStop::Ill {
            at,
            rule: Rule::Sort,
        })
    }
}

/// The type of an entry, as it is seen from inside it and so many more.
fn from_inside(alloc: Global, ty: &Ty, more: u32) -> Result<Ty, TypeStop>
    ensures seen { IfOk result (λ seen. ty_tree seen ≡ rename_ty (shifting 0 (suc more)) (ty_tree ty.now)) }
    ensures memory { IfErr result (λ stop. stop ≡ NoMemory) }
{
    match more.checked_add(1) {
        Some(by) => Ok(shift_ty(alloc, ty, 0, by)?),
        None => Err(TypeStop::NoMemory),
    }
}

/// The type of the term variable of this index, as it is seen from the whole context; where the entry is no term, or
/// isn't there, the rule is `sort` at this byte.
pub fn entry_type(alloc: Global, entries: &[Entry], at: u64, index: u32) -> Result<Ty, TypeStop>
    ensures comes { Answers ty_tree (Finds (λ (ty : TyTree). HasEntryType (context_of entries.now) index ty) (refused rules.Sort at)) result }
{
    match term_at(entries, index) {
        Some(ty) => from_inside(alloc, ty, index),
        None => Err(TypeStop::Ill {
            at,
            rule: Rule::Sort,
        }),
    }
}

/// Whether there is room for so many entries more.
fn has_room(entries: &[Entry], more: u32) -> bool
    ensures room { OnTrue result (length entries.now + more ≤ 4096) }
    ensures no_room { OnFalse result (4096 < length entries.now + more) }
{
    entries.len() <= MOST_ENTRIES && more as usize <= MOST_ENTRIES - entries.len()
}

/// Whether there is room for so many entries more: else the limit `context` is passed. It takes no memory.
pub fn room(entries: &[Entry], more: u32) -> Result<(), TypeStop>
    ensures comes { Answers (λ u. u) (HasRoom (context_of entries.now) more) result }
{
    if has_room(entries, more) {
        Ok(())
    } else {
        Err(TypeStop::Limit(Which::Context))
    }
}
