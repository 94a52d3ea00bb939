//! What a file has declared: the types of its values, its definitions with their types, its recursive predicates.

ghost use Rattle.std.specs.Prelude.{◌≡◌, map, slice_get, option_copied, IfOk, IfErr, Some};
ghost use Rattle.htt_syntax.specs.Trees.{TyTree, TermTree};
ghost use Rattle.htt_syntax.specs.Views.{ty_tree};
ghost use Rattle.htt_syntax_words.specs.declared.words.Rule.TheVariants as rules;
ghost use Rattle.theory_truth.specs.Predicates.{RecTree};
ghost use Rattle.theory_views.specs.Environments.{def_tree, rec_tree};
ghost use Rattle.theory_checking.specs.Stops.{refused, Finds};
ghost use Rattle.kinds_types_entries.specs.Answers.{Answers};
ghost use Rattle.kinds_types_entries.specs.declared.stop.TypeStop.TheVariants.{NoMemory};

use crate::stop::TypeStop;
use htt_syntax::{RecPred, Rule, Term, Ty};
use htt_syntax_walk::{copy_term, copy_ty};
use std::alloc::Global;

/// The item of this number, if there is one. It takes no memory.
fn item_at<T>(items: &[T], number: u32) -> Option<&T>
    ensures item { option_copied result ≡ slice_get items.now number }
{
    items.get(number as usize)
}

fn copied_type(alloc: Global, ty: &Ty) -> Result<Ty, TypeStop>
    ensures same { IfOk result (λ copy. ty_tree copy ≡ ty_tree ty.now) }
    ensures memory { IfErr result (λ stop. stop ≡ NoMemory) }
{
    Ok(copy_ty(alloc, ty)?)
}

fn copied_definition(alloc: Global, definition: &(Ty, Term)) -> Result<(Ty, Term), TypeStop>
    ensures same { IfOk result (λ copy. def_tree copy ≡ def_tree definition.now) }
    ensures memory { IfErr result (λ stop. stop ≡ NoMemory) }
{
    let ty = copy_ty(alloc, &definition.0)?;
    let term = copy_term(alloc, &definition.1)?;
    Ok((ty, term))
}

/// The type of the value of this number; where there is none, the rule is `sort` at this byte.
pub fn value_type(alloc: Global, vals: &[Ty], at: u64, number: u32) -> Result<Ty, TypeStop>
    ensures comes { Answers ty_tree (Finds (λ (ty : TyTree). slice_get (map ty_tree vals.now) number ≡ Some ty) (refused rules.Sort at)) result }
{
    match item_at(vals, number) {
        Some(ty) => copied_type(alloc, ty),
        None => Err(TypeStop::Ill {
            at,
            rule: Rule::Sort,
        }),
    }
}

/// The type and the term of the definition of this number; where there is none, the rule is `sort` at this byte.
pub fn definition(
    alloc: Global,
    defs: &[(Ty, Term)],
    at: u64,
    number: u32,
) -> Result<(Ty, Term), TypeStop>
    ensures comes { Answers def_tree (Finds (λ (d : TyTree × TermTree). slice_get (map def_tree defs.now) number ≡ Some d) (refused rules.Sort at)) result }
{
    match item_at(defs, number) {
        Some(definition) => copied_definition(alloc, definition),
        None => Err(TypeStop::Ill {
            at,
            rule: Rule::Sort,
        }),
    }
}

/// The recursive predicate of this number; where there is none, the rule is `sort` at this byte. It takes no memory.
pub fn predicate(recs: &[RecPred], at: u64, number: u32) -> Result<&RecPred, TypeStop>
    ensures comes { Answers (λ r. rec_tree r.now) (Finds (λ (r : RecTree). slice_get (map rec_tree recs.now) number ≡ Some r) (refused rules.Sort at)) result }
{
    match item_at(recs, number) {
        Some(predicate) => Ok(predicate),
        None => Err(TypeStop::Ill {
            at,
            rule: Rule::Sort,
        }),
    }
}
