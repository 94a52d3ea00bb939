//! What a name stands for at the place where it is used: the innermost binder of that name, or else the declaration.

ghost use Rattle.std.specs.Prelude.{◌≡◌, Some, true, false, IfSome, IfNone, option_map};
ghost use Rattle.theory_text_names.specs.Scopes.{hypotheses};
ghost use Rattle.theory_text_names.specs.Uses.{a_declared, use_of, local_use, declares, meaning_of, declared_use};
ghost use Rattle.htt_resolve_names.specs.Views.{declared_tree, meaning_tree, rows_tree};
ghost use Rattle.htt_resolve_scopes.specs.Views.{sort_of, innermost_first, use_tree};

use crate::local::{Local, Sort, innermost};
use htt_resolve_names::{Declared, Meaning};

/// What a name stands for: an entry, by its index and its sort; a hypothesis, by its place, the first one being 0; or
/// what is declared.
#[derive(Clone, Copy)]
pub enum Use<'a> {
    Variable(u64, Sort),
    Hypothesis(u64),
    Declared(&'a Meaning),
}

/// How many of the locals are hypotheses.
fn hypotheses(locals: &[Local]) -> u64
    ensures counted { result ≡ hypotheses (innermost_first locals.now) }
{
    let mut counted: u64 = 0;
    let mut left = locals.len();
    'outward: while left > 0 {
        let local = innermost(locals, left);
        left -= 1;
        counted = local.sort.one_more_hypothesis(counted);
    }
    counted
}

/// What a local of this sort is, with so many entries inside it, and those locals outside it.
fn use_of<'a>(sort: Sort, inside: u64, outer: &[Local]) -> Use<'a>
    ensures used { use_tree result ≡ use_of (sort_of sort) inside (innermost_first outer.now) }
{
    match sort {
        Sort::Hypothesis => Use::Hypothesis(hypotheses(outer)),
        _ => Use::Variable(inside, sort),
    }
}

/// The innermost local of this name.
pub(crate) fn local_use<'a>(locals: &[Local], name: &[u8]) -> Option<Use<'a>>
    ensures innermost { option_map use_tree result ≡ local_use name.now 0 (innermost_first locals.now) }
{
    let mut inside: u64 = 0;
    let mut left = locals.len();
    'outward: while left > 0 {
        let local = innermost(locals, left);
        left -= 1;
        if local.is_named(name) {
            return Some(use_of(local.sort, inside, &locals[..left]));
        }
        inside = local.sort.one_more(inside);
    }
    None
}

/// What the row declares the name as, if it declares it.
#[tactic(auto, unfolding(htt_resolve_names::specs::Views::declared_tree))]
fn declared_by<'a>(row: &'a Option<Declared>, name: &[u8]) -> Option<&'a Meaning>
    ensures found { IfSome result (λ m. (declares name.now (option_map declared_tree row.now) ≡ true) × (meaning_of (option_map declared_tree row.now) ≡ Some (a_declared (meaning_tree m.now)))) }
    ensures other { IfNone result (declares name.now (option_map declared_tree row.now) ≡ false) }
{
    match row {
        Some(declared) if declared.name.as_slice() == name => Some(&declared.meaning),
        _ => None,
    }
}

/// The first row that declares the name.
#[tactic(auto, using(crate::proofs::Rows::rows_none, crate::proofs::Rows::rows_more))]
pub(crate) fn declared_use<'a>(rows: &'a [Option<Declared>], name: &[u8]) -> Option<Use<'a>>
    ensures declared { option_map use_tree result ≡ declared_use name.now (rows_tree rows.now) }
{
    let mut left = rows;
    'onward: while let Some((row, rest)) = left.split_first() {
        if let Some(found) = declared_by(row, name) {
            return Some(Use::Declared(found));
        }
        left = rest;
    }
    None
}
