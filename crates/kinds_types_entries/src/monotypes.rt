//! Monotypes: formed ones, their limit, and those whose values are compared.

ghost use Rattle.std.specs.Prelude.{◌≡◌, ◌+◌, ◌<◌, ◌≤◌, MatchOption};
ghost use Rattle.std.specs.Bool.{OnTrue, OnFalse};
ghost use Rattle.htt_syntax.specs.Views.{mono_tree};
ghost use Rattle.htt_syntax_words.specs.declared.words.Rule.TheVariants as rules;
ghost use Rattle.theory_counts.specs.Nodes.{nodes_mono};
ghost use Rattle.theory_typing.specs.Contexts.{FormsMono, IsComparable};
ghost use Rattle.theory_views.specs.Contexts.{context_of};
ghost use Rattle.theory_checking.specs.Stops.{refused, Needs};
ghost use Rattle.theory_checking.specs.Limits.{IsNarrow, MonoComesTo};
ghost use Rattle.kinds_types_entries.specs.Answers.{Answers};

use crate::entries::mono_at;
use crate::stop::TypeStop;
use htt_syntax::{Entry, Mono, Rule, Which};

/// The largest permitted number of nodes of a monotype.
const MOST_NODES: u32 = 64;

/// What is left of so many nodes when those of a monotype are taken off, if there are enough.
#[tactic(auto, using(htt_syntax::specs::Levels::mono_levels, crate::proofs::MonotypeLevels::node_levels, crate::proofs::MonotypeLevels::some_node))]
fn left_of(mono: &Mono, nodes: u32) -> Option<u32>
    ensures left { MatchOption result (nodes < nodes_mono (mono_tree mono.now)) (λ rest. rest + nodes_mono (mono_tree mono.now) ≡ nodes) }
{
    let others = nodes.checked_sub(1)?;
    match mono {
        Mono::Pair(left, right) => left_of(right.get(), left_of(left.get(), others)?),
        Mono::Word | Mono::Bool | Mono::Loc | Mono::Unit | Mono::Var(_) => Some(others),
    }
}

/// Whether a monotype is within the limit.
fn is_narrow(mono: &Mono) -> bool
    ensures narrow { OnTrue result (nodes_mono (mono_tree mono.now) ≤ 64) }
    ensures wide { OnFalse result (64 < nodes_mono (mono_tree mono.now)) }
{
    left_of(mono, MOST_NODES).is_some()
}

/// Whether a monotype has at most 64 nodes: else the limit `mono` is passed. It takes no memory.
pub fn narrow(mono: &Mono) -> Result<(), TypeStop>
    ensures comes { Answers (λ u. u) (IsNarrow (mono_tree mono.now)) result }
{
    if is_narrow(mono) {
        Ok(())
    } else {
        Err(TypeStop::Limit(Which::Mono))
    }
}

/// Whether each variable of a monotype is a monotype of the context.
#[tactic(auto, using(htt_syntax::specs::Levels::mono_levels, crate::proofs::MonotypeLevels::forms_levels, crate::proofs::Standing::mono_true, crate::proofs::Standing::mono_false))]
fn is_formed(entries: &[Entry], mono: &Mono) -> bool
    ensures formed { OnTrue result (FormsMono (context_of entries.now) (mono_tree mono.now)) }
    ensures not_formed { OnFalse result (FormsMono (context_of entries.now) (mono_tree mono.now) → ⊥) }
{
    match mono {
        Mono::Pair(left, right) => {
            is_formed(entries, left.get()) && is_formed(entries, right.get())
        }
        Mono::Var(index) => mono_at(entries, *index),
        Mono::Word | Mono::Bool | Mono::Loc | Mono::Unit => true,
    }
}

/// Whether a monotype is formed in the context, at this byte, and within its limit: else the rule is `sort`, or the
/// limit `mono` is passed. It takes no memory.
pub fn monotype(entries: &[Entry], at: u64, mono: &Mono) -> Result<(), TypeStop>
    ensures comes { Answers (λ u. u) (MonoComesTo (context_of entries.now) at (mono_tree mono.now)) result }
{
    if is_formed(entries, mono) {
        narrow(mono)
    } else {
        Err(TypeStop::Ill {
            at,
            rule: Rule::Sort,
        })
    }
}

/// Whether the monotype is `word`, `bool` or `loc`.
#[tactic(auto, using(htt_syntax::specs::Levels::mono_levels, crate::proofs::MonotypeLevels::compared_levels))]
fn is_comparable(mono: &Mono) -> bool
    ensures compared { OnTrue result (IsComparable (mono_tree mono.now)) }
    ensures not_compared { OnFalse result (IsComparable (mono_tree mono.now) → ⊥) }
{
    match mono {
        Mono::Word | Mono::Bool | Mono::Loc => true,
        Mono::Unit | Mono::Pair(..) | Mono::Var(_) => false,
    }
}

/// Whether values of a monotype are compared by `eq`, at this byte: else the rule is `eq`. It takes no memory.
pub fn comparable(at: u64, mono: &Mono) -> Result<(), TypeStop>
    ensures comes { Answers (λ u. u) (Needs (IsComparable (mono_tree mono.now)) (refused rules.Eq at)) result }
{
    if is_comparable(mono) {
        Ok(())
    } else {
        Err(TypeStop::Ill { at, rule: Rule::Eq })
    }
}
