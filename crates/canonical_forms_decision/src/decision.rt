//! The public call.

ghost use Rattle.std.specs.Prelude.{◌↔◌, IfOk, IsTrue};
ghost use Rattle.htt_syntax.specs.Views.{term_tree};
ghost use Rattle.theory_canonical.specs.Canonical.{IsCanonical};
ghost use Rattle.canonical_forms_skeletons.specs.Views.{skeleton_tree};
ghost use Rattle.canonical_forms_decision.specs.Views.{given_standings, given_heads};

use crate::context::Context;
use crate::terms::term_at;
use canonical_forms_skeletons::Skeleton;
use htt_syntax::Term;
use std::alloc::{AllocError, Global};

/// Whether the term is canonical at the skeleton. The context has the skeletons of the free variables, the outermost
/// first; a monotype, a heap and a term of a monotype stand in it as `O`. `vals` has the skeletons of the values. No
/// made function is known, so a term that holds one isn't canonical. It fails for want of memory alone.
pub fn is_canonical(
    alloc: Global,
    context: &[Skeleton],
    vals: &[Skeleton],
    term: &Term,
    at: &Skeleton,
) -> Result<bool, AllocError>
    ensures decided { IfOk result (λ b. IsTrue b ↔ IsCanonical (given_heads vals.now) (given_standings context.now) (term_tree term.now) (skeleton_tree at.now)) }
{
    let context = Context::given(alloc, vals, context)?;
    term_at(alloc, term, &context, at)
}
