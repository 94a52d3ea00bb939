//! The side conditions of axioms on monotypes, and how large a monotype is.

ghost use Rattle.std.specs.Prelude.{◌≡◌, ◌+◌, ◌↔◌, ◌≤◌, IfOk, IsTrue, min};
ghost use Rattle.htt_syntax.specs.Trees.{m_pair};
ghost use Rattle.htt_syntax.specs.Views.{mono_tree};
ghost use Rattle.theory_counts.specs.Nodes.{nodes_mono};
ghost use Rattle.theory_typing.specs.Contexts.{IsComparable};
ghost use Rattle.theory_logic_axioms.specs.Table.{SameWidth, count_of_words, uses_of};
ghost use Rattle.logic_axioms_shapes.specs.Widths.{are_as_wide, are_used_alike};

use htt_syntax::Mono;
use std::alloc::AllocError;

/// Whether `eq` compares values of the monotype: words, truth values and locations. It takes no memory.
#[tactic(auto, using(htt_syntax::specs::Levels::mono_levels, crate::proofs::SideConditions::compares_words, crate::proofs::SideConditions::compares_truths, crate::proofs::SideConditions::compares_places))]
pub fn is_comparable(t: &Mono) -> bool
    ensures comparable { IsTrue result ↔ IsComparable (mono_tree t.now) }
{
    match t {
        Mono::Word | Mono::Bool | Mono::Loc => true,
        Mono::Unit | Mono::Pair(_, _) | Mono::Var(_) => false,
    }
}

/// How many nodes the monotype has, or 2^64 - 1 where these are more.
#[tactic(auto, using(htt_syntax::specs::Levels::mono_levels), unfolding(theory_counts::specs::Nodes::nodes_mono))]
fn nodes(t: &Mono) -> u64
    ensures nodes { result ≡ min (nodes_mono (mono_tree t.now)) 18446744073709551615 }
{
    match t {
        Mono::Word | Mono::Bool | Mono::Loc | Mono::Unit | Mono::Var(_) => 1,
        Mono::Pair(left, right) => nodes(left.get())
            .saturating_add(nodes(right.get()))
            .saturating_add(1),
    }
}

/// Whether the pair of the monotypes has at most 64 nodes.
#[tactic(auto, unfolding(theory_counts::specs::Nodes::nodes_mono))]
pub fn is_narrow_pair(t: &Mono, s: &Mono) -> bool
    ensures narrow { IsTrue result ↔ (nodes_mono (m_pair (mono_tree t.now) (mono_tree s.now)) ≤ 64) }
{
    nodes(t).saturating_add(nodes(s)) < 64
}

/// How many words, truth values and locations the monotype has together. It fails where they would pass 2^64 - 1.
#[tactic(auto, using(htt_syntax::specs::Levels::mono_levels), unfolding(theory_logic_axioms::specs::Table::count_of_words))]
fn count_of_words(t: &Mono) -> Result<u64, AllocError>
    ensures { IfOk result (λ n. n ≡ count_of_words (mono_tree t.now)) }
{
    match t {
        Mono::Word | Mono::Bool | Mono::Loc => Ok(1),
        Mono::Unit | Mono::Var(_) => Ok(0),
        Mono::Pair(left, right) => sum(count_of_words(left.get())?, count_of_words(right.get())?),
    }
}

/// How often the monotype has this variable. It fails where that would pass 2^64 - 1.
#[tactic(auto, using(htt_syntax::specs::Levels::mono_levels), unfolding(theory_logic_axioms::specs::Table::uses_of))]
fn uses_of(index: u32, t: &Mono) -> Result<u64, AllocError>
    ensures { IfOk result (λ n. n ≡ uses_of index (mono_tree t.now)) }
{
    match t {
        Mono::Word | Mono::Bool | Mono::Loc | Mono::Unit => Ok(0),
        Mono::Var(other) => Ok(u64::from(index == *other)),
        Mono::Pair(left, right) => sum(uses_of(index, left.get())?, uses_of(index, right.get())?),
    }
}

fn sum(left: u64, right: u64) -> Result<u64, AllocError>
    ensures { IfOk result (λ n. n ≡ left + right) }
{
    left.checked_add(right).ok_or(AllocError)
}

/// Whether the variables of `among` are used in `t` as often as in `s`.
#[tactic(auto, using(htt_syntax::specs::Levels::mono_levels), unfolding(crate::specs::Widths::are_used_alike))]
fn are_used_alike(among: &Mono, t: &Mono, s: &Mono) -> Result<bool, AllocError>
    ensures { IfOk result (λ alike. alike ≡ are_used_alike (mono_tree among.now) (mono_tree t.now) (mono_tree s.now)) }
{
    match among {
        Mono::Word | Mono::Bool | Mono::Loc | Mono::Unit => Ok(true),
        Mono::Var(index) => Ok(uses_of(*index, t)? == uses_of(*index, s)?),
        Mono::Pair(left, right) => {
            Ok(are_used_alike(left.get(), t, s)? && are_used_alike(right.get(), t, s)?)
        }
    }
}

/// Whether the monotypes have as many words, truth values and locations together, and each variable as often. It
/// fails where such a count would pass 2^64 - 1.
#[tactic(auto, using(crate::proofs::SideConditions::as_wide_exactly))]
pub fn are_as_wide(t: &Mono, s: &Mono) -> Result<bool, AllocError>
    ensures as_wide { IfOk result (λ wide. IsTrue wide ↔ SameWidth (mono_tree t.now) (mono_tree s.now)) }
{
    compared(t, s)
}

#[tactic(auto, unfolding(crate::specs::Widths::are_as_wide))]
fn compared(t: &Mono, s: &Mono) -> Result<bool, AllocError>
    ensures { IfOk result (λ wide. wide ≡ are_as_wide (mono_tree t.now) (mono_tree s.now)) }
{
    let words = count_of_words(t)? == count_of_words(s)?;
    let in_t = are_used_alike(t, t, s)?;
    let in_s = are_used_alike(s, t, s)?;
    Ok(words && (in_t && in_s))
}
