//! Monotypes.

ghost use Rattle.std.specs.Prelude.{◌≡◌};
ghost use Rattle.htt_syntax.specs.Views.{mono_tree};
ghost use Rattle.theory_canonical_decided.specs.Decision.{mono_is_canonical};
ghost use Rattle.canonical_forms_decision.specs.Views.{context_tree};

use crate::context::Context;
use htt_syntax::Mono;

/// Whether the monotype is canonical. It takes no memory.
#[tactic(auto, using(htt_syntax::specs::Levels::mono_levels), unfolding(theory_canonical_decided::specs::Decision::mono_is_canonical))]
pub(crate) fn mono_at(mono: &Mono, context: &Context<'_>) -> bool
    ensures decided { result ≡ mono_is_canonical (context_tree context.now) (mono_tree mono.now) }
{
    match mono {
        Mono::Word => true,
        Mono::Bool => true,
        Mono::Loc => true,
        Mono::Unit => true,
        Mono::Pair(left, right) => mono_at(left.get(), context) && mono_at(right.get(), context),
        Mono::Var(index) => context.is_mono(*index),
    }
}
