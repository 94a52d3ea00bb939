//! Terms.

ghost use Rattle.std.specs.Prelude.{◌≡◌, ◌+◌, IfOk};
ghost use Rattle.htt_syntax.specs.Views.{term_tree};
ghost use Rattle.htt_syntax.specs.Levels.{term_trees};
ghost use Rattle.htt_syntax_walk.specs.Walk.{walk_term, walk_terms};

use crate::action::Action;
use crate::computations::{comp_box, fix_box};
use crate::mono::walk_mono;
use crate::types::ty_box;
use htt_syntax::Term;
use htt_syntax_seq::{Seq, boxed};
use sqlite_items::Boxed;
use std::alloc::{AllocError, Global};

/// The term with what the action puts for its variables; `depth` binders stand around it.
/// One flat `match`: each form of node is one line, so that a missing or wrong one is seen.
#[cycle(walk)]
#[tactic(auto, using(htt_syntax::specs::Levels::term_levels, crate::specs::WalkLevels::term_walks))]
pub fn walk_term<A: Action>(
    alloc: Global,
    term: &Term,
    action: &A,
    depth: u32,
) -> Result<Term, AllocError>
    ensures walked { IfOk result (λ t. term_tree t ≡ walk_term (A.puts action.now) depth (term_tree term.now)) }
{
    match term {
        Term::Var(index) => action.at_term(alloc, *index, depth),
        Term::Val(number) => Ok(Term::Val(*number)),
        Term::Def(number) => Ok(Term::Def(*number)),
        Term::App(function, argument) => htt_syntax_build::term_app(
            term_box(alloc, function, action, depth),
            term_box(alloc, argument, action, depth),
        ),
        Term::Inst(function, mono) => htt_syntax_build::term_inst(
            term_box(alloc, function, action, depth),
            walk_mono(alloc, mono, action, depth),
        ),
        Term::Lam(body) => htt_syntax_build::term_lam(term_box_under(
            alloc, body, action, depth, 1,
        )),
        Term::LamT(body) => htt_syntax_build::term_lam_t(term_box_under(
            alloc, body, action, depth, 1,
        )),
        Term::Do(comp) => comp_box(alloc, comp, action, depth).map(|comp| Term::Do(comp)),
        Term::Fix(fix) => fix_box(alloc, fix, action, depth).map(|fix| Term::Fix(fix)),
        Term::Word(word) => Ok(Term::Word(*word)),
        Term::Bool(truth) => Ok(Term::Bool(*truth)),
        Term::Loc(place) => Ok(Term::Loc(*place)),
        Term::Unit => Ok(Term::Unit),
        Term::Pair(left, right) => htt_syntax_build::term_pair(
            term_box(alloc, left, action, depth),
            term_box(alloc, right, action, depth),
        ),
        Term::Fst(pair) => htt_syntax_build::term_fst(term_box(alloc, pair, action, depth)),
        Term::Snd(pair) => htt_syntax_build::term_snd(term_box(alloc, pair, action, depth)),
        Term::Un(term) => htt_syntax_build::term_not(term_box(alloc, term, action, depth)),
        Term::Bin(op, left, right) => htt_syntax_build::term_bin(
            *op,
            term_box(alloc, left, action, depth),
            term_box(alloc, right, action, depth),
        ),
        Term::Eq(mono, left, right) => htt_syntax_build::term_eq(
            walk_mono(alloc, mono, action, depth),
            term_box(alloc, left, action, depth),
            term_box(alloc, right, action, depth),
        ),
        Term::Sel(mono, test, on_true, on_false) => htt_syntax_build::term_sel(
            walk_mono(alloc, mono, action, depth),
            term_box(alloc, test, action, depth),
            term_box(alloc, on_true, action, depth),
            term_box(alloc, on_false, action, depth),
        ),
        Term::Ann(term, ty) => htt_syntax_build::term_ann(
            term_box(alloc, term, action, depth),
            ty_box(alloc, ty, action, depth),
        ),
        Term::Made(number, values) => htt_syntax_build::term_made(
            *number,
            walk_terms(alloc, values.as_slice(), action, depth),
        ),
        Term::At(at, term) => htt_syntax_build::term_at(*at, term_box(alloc, term, action, depth)),
    }
}

/// Terms that stand under the same binders, walked.
#[cycle(walk)]
pub fn walk_terms<A: Action>(
    alloc: Global,
    terms: &[Term],
    action: &A,
    depth: u32,
) -> Result<Seq<Term>, AllocError>
    ensures walked { IfOk result (λ ts. term_trees ts ≡ walk_terms (A.puts action.now) depth (term_trees terms.now)) }
{
    let mut walked = Vec::new(alloc);
    for term in terms {
        walked.push(walk_term(alloc, term, action, depth)?)?;
    }
    Ok(Seq::of(walked))
}

#[cycle(walk)]
fn term_box<A: Action>(
    alloc: Global,
    term: &Boxed<Term>,
    action: &A,
    depth: u32,
) -> Result<Boxed<Term>, AllocError>
    ensures walked { IfOk result (λ t. term_tree t ≡ walk_term (A.puts action.now) depth (term_tree term.now)) }
{
    boxed(alloc, walk_term(alloc, term.get(), action, depth))
}

#[cycle(walk)]
fn term_box_under<A: Action>(
    alloc: Global,
    term: &Boxed<Term>,
    action: &A,
    depth: u32,
    by: u32,
) -> Result<Boxed<Term>, AllocError>
    ensures walked { IfOk result (λ t. term_tree t ≡ walk_term (A.puts action.now) (depth + by) (term_tree term.now)) }
{
    match depth.checked_add(by) {
        Some(inner) => term_box(alloc, term, action, inner),
        None => Err(AllocError),
    }
}
