//! What an axiom takes of monotypes, and the sorts of its arguments at them.

ghost use Rattle.std.specs.Prelude.{◌≡◌, IfOk, MatchResult, List, map};
ghost use Rattle.htt_syntax.specs.Trees.{MonoTree, m_pair, m_unit};
ghost use Rattle.htt_syntax.specs.Views.{mono_tree};
ghost use Rattle.theory_logic_axioms.specs.Table as table;
ghost use Rattle.logic_axioms_shapes.specs.Views.{arg_sort};
ghost use Rattle.logic_axioms_shapes.specs.Slots.{slot_sort};
ghost use Rattle.logic_axioms_shapes.specs.Answers.{IsShapeAt, StopsAt, IsPairShape, StopsPair};

use crate::slots::{Slot, sorts_of};
use crate::sort::{ArgSort, AxiomStop};
use crate::widths::{are_as_wide, is_comparable, is_narrow_pair};
use htt_syntax::Mono;
use htt_syntax_build::mono_pair;
use htt_syntax_seq::boxed;
use htt_syntax_walk::copy_mono;
use std::alloc::{AllocError, Global};

/// No monotype.
pub fn plain(alloc: Global, monos: &[Mono], slots: &[Slot]) -> Result<Vec<ArgSort>, AxiomStop>
    ensures { (sorts : List table.ArgSort)
        → sorts ≡ map (slot_sort m_unit) slots.now
        → MatchResult result (λ found. IsShapeAt (table.no_mono sorts) (map mono_tree monos.now) (map arg_sort found.items))
        (StopsAt (table.no_mono sorts) (map mono_tree monos.now)) }
{
    let [] = monos else {
        return Err(AxiomStop::BadInstance);
    };
    Ok(sorts_of(alloc, slots, &Mono::Unit)?)
}

/// One monotype, of the values.
pub fn with_one(alloc: Global, monos: &[Mono], slots: &[Slot]) -> Result<Vec<ArgSort>, AxiomStop>
    ensures { (sorts : MonoTree → List table.ArgSort)
        → ((t : MonoTree) → sorts t ≡ map (slot_sort t) slots.now)
        → MatchResult result (λ found. IsShapeAt (table.one_mono sorts) (map mono_tree monos.now) (map arg_sort found.items))
        (StopsAt (table.one_mono sorts) (map mono_tree monos.now)) }
{
    let [t] = monos else {
        return Err(AxiomStop::BadInstance);
    };
    Ok(sorts_of(alloc, slots, t)?)
}

/// One monotype at which `eq` compares, of the values.
pub fn with_comparable(
    alloc: Global,
    monos: &[Mono],
    slots: &[Slot],
) -> Result<Vec<ArgSort>, AxiomStop>
    ensures { (sorts : MonoTree → List table.ArgSort)
        → ((t : MonoTree) → sorts t ≡ map (slot_sort t) slots.now)
        → MatchResult result (λ found. IsShapeAt (table.one_comparable sorts) (map mono_tree monos.now) (map arg_sort found.items))
        (StopsAt (table.one_comparable sorts) (map mono_tree monos.now)) }
{
    let [t] = monos else {
        return Err(AxiomStop::BadInstance);
    };
    if !is_comparable(t) {
        return Err(AxiomStop::BadInstance);
    }
    Ok(sorts_of(alloc, slots, t)?)
}

/// Two monotypes.
pub fn with_two(alloc: Global, monos: &[Mono], slots: &[Slot]) -> Result<Vec<ArgSort>, AxiomStop>
    ensures { (sorts : MonoTree → MonoTree → List table.ArgSort)
        → ((t s : MonoTree) → sorts t s ≡ map (slot_sort m_unit) slots.now)
        → MatchResult result (λ found. IsShapeAt (table.two_monos sorts) (map mono_tree monos.now) (map arg_sort found.items))
        (StopsAt (table.two_monos sorts) (map mono_tree monos.now)) }
{
    let [_, _] = monos else {
        return Err(AxiomStop::BadInstance);
    };
    Ok(sorts_of(alloc, slots, &Mono::Unit)?)
}

/// Two monotypes that are as wide as each other.
pub fn with_two_as_wide(
    alloc: Global,
    monos: &[Mono],
    slots: &[Slot],
) -> Result<Vec<ArgSort>, AxiomStop>
    ensures { (sorts : MonoTree → MonoTree → List table.ArgSort)
        → ((t s : MonoTree) → sorts t s ≡ map (slot_sort m_unit) slots.now)
        → MatchResult result (λ found. IsShapeAt (table.two_as_wide sorts) (map mono_tree monos.now) (map arg_sort found.items))
        (StopsAt (table.two_as_wide sorts) (map mono_tree monos.now)) }
{
    let [t, s] = monos else {
        return Err(AxiomStop::BadInstance);
    };
    if !are_as_wide(t, s)? {
        return Err(AxiomStop::BadInstance);
    }
    Ok(sorts_of(alloc, slots, &Mono::Unit)?)
}

/// The pair of two monotypes.
#[tactic(auto, using(htt_syntax::specs::Levels::mono_levels))]
fn pair_of(alloc: Global, t: &Mono, s: &Mono) -> Result<Mono, AllocError>
    ensures { IfOk result (λ pair. mono_tree pair ≡ m_pair (mono_tree t.now) (mono_tree s.now)) }
{
    mono_pair(
        boxed(alloc, copy_mono(alloc, t)),
        boxed(alloc, copy_mono(alloc, s)),
    )
}

/// Two monotypes, and a value of the pair of them, unless it has more than 64 nodes.
pub fn with_pair(alloc: Global, monos: &[Mono]) -> Result<Vec<ArgSort>, AxiomStop>
    ensures { MatchResult result (λ found. IsPairShape (map mono_tree monos.now) (map arg_sort found.items))
        (StopsPair (map mono_tree monos.now)) }
{
    let [t, s] = monos else {
        return Err(AxiomStop::BadInstance);
    };
    if !is_narrow_pair(t, s) {
        return Err(AxiomStop::MonoTooLarge);
    }
    let pair = pair_of(alloc, t, s)?;
    Ok(sorts_of(alloc, &[Slot::Value], &pair)?)
}
