//! Formulas.

ghost use Rattle.std.specs.Prelude.{◌≡◌, ◌∷◌, IfOk};
ghost use Rattle.htt_syntax.specs.Views.{formula_tree};
ghost use Rattle.theory_canonical_decided.specs.Decision.{formula_is_canonical};
ghost use Rattle.canonical_forms_decision.specs.Views.{standing, context_tree, heads_tree};

use crate::answers::both_hold;
use crate::context::{Context, Entry};
use crate::mono::mono_at;
use crate::terms::{value_at, values_at};
use htt_syntax::Formula;
use std::alloc::{AllocError, Global};

/// Whether the formula is canonical.
#[cycle(decide)]
#[tactic(auto, using(htt_syntax::specs::Levels::formula_levels), unfolding(theory_canonical_decided::specs::Decision::term_is_canonical))]
pub(crate) fn formula_at(
    alloc: Global,
    formula: &Formula,
    context: &Context<'_>,
) -> Result<bool, AllocError>
    ensures decided { IfOk result (λ b. b ≡ formula_is_canonical (heads_tree context.now) (context_tree context.now) (formula_tree formula.now)) }
{
    match formula {
        Formula::Tt => Ok(true),
        Formula::Ff => Ok(true),
        Formula::And(left, right) => both_hold(
            formula_at(alloc, left.get(), context),
            formula_at(alloc, right.get(), context),
        ),
        Formula::Or(left, right) => both_hold(
            formula_at(alloc, left.get(), context),
            formula_at(alloc, right.get(), context),
        ),
        Formula::Imp(left, right) => both_hold(
            formula_at(alloc, left.get(), context),
            formula_at(alloc, right.get(), context),
        ),
        Formula::AllT(mono, body) => both_hold(
            Ok(mono_at(mono, context)),
            formula_under(alloc, body.get(), context, Entry::Value),
        ),
        Formula::ExT(mono, body) => both_hold(
            Ok(mono_at(mono, context)),
            formula_under(alloc, body.get(), context, Entry::Value),
        ),
        Formula::AllH(body) => formula_under(alloc, body.get(), context, Entry::Heap),
        Formula::ExH(body) => formula_under(alloc, body.get(), context, Entry::Heap),
        Formula::Emp(heap) => Ok(context.is_heap(*heap)),
        Formula::Cell(mono, heap, place, value) => both_hold(
            both_hold(Ok(mono_at(mono, context)), Ok(context.is_heap(*heap))),
            both_hold(
                value_at(alloc, place, context),
                value_at(alloc, value, context),
            ),
        ),
        Formula::Block(mono, heap, place) => both_hold(
            Ok(mono_at(mono, context)),
            both_hold(Ok(context.is_heap(*heap)), value_at(alloc, place, context)),
        ),
        Formula::Join(whole, left, right) => both_hold(
            Ok(context.is_heap(*whole)),
            both_hold(Ok(context.is_heap(*left)), Ok(context.is_heap(*right))),
        ),
        Formula::Same(left, right) => both_hold(
            Ok(context.is_heap(*left)),
            Ok(context.is_heap(*right)),
        ),
        Formula::Eq(mono, left, right) => both_hold(
            Ok(mono_at(mono, context)),
            both_hold(
                value_at(alloc, left, context),
                value_at(alloc, right, context),
            ),
        ),
        Formula::Rec(_, heap, place, arguments) => both_hold(
            Ok(context.is_heap(*heap)),
            both_hold(
                value_at(alloc, place, context),
                values_at(alloc, arguments.as_slice(), context),
            ),
        ),
        Formula::At(_, _) => Ok(false),
    }
}

/// Whether the formula is canonical under one more entry.
#[cycle(decide)]
pub(crate) fn formula_under<'a>(
    alloc: Global,
    formula: &Formula,
    context: &Context<'a>,
    entry: Entry<'a>,
) -> Result<bool, AllocError>
    ensures decided { IfOk result (λ b. b ≡ formula_is_canonical (heads_tree context.now) (standing entry.entry ∷ context_tree context.now) (formula_tree formula.now)) }
{
    let inner = context.under(alloc, entry)?;
    formula_at(alloc, formula, &inner)
}
