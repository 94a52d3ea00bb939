//! Terms from their parts, folded.

ghost use Rattle.std.specs.Prelude.{◌≡◌, IfOk};
ghost use Rattle.htt_syntax.specs.declared.tree.Term.{Term};
ghost use Rattle.htt_syntax.specs.declared.tree.Term.TheVariants as vterm;
ghost use Rattle.htt_syntax.specs.Trees.{t_fst, t_snd, t_not, t_bin, t_eq, t_sel};
ghost use Rattle.htt_syntax.specs.Views.{mono_tree, term_tree};
ghost use Rattle.theory_canonical.specs.Folding.{folding};

use crate::literals::{bool_of, compared, is_pair, result_of, words_of};
use htt_syntax::{Mono, Op, Term};
use htt_syntax_build::{term_bin, term_eq, term_fst, term_not, term_sel, term_snd};
use htt_syntax_seq::boxed;
use sqlite_items::Boxed;
use std::alloc::{AllocError, Global};

/// The first of two parts.
fn one_of(part: Boxed<Term>, _other: Boxed<Term>) -> Term
    ensures part { result ≡ part }
{
    part.into_inner()
}

/// The left part of a pair, and any other term itself.
fn left_of(term: Term) -> Term
    ensures left { (a b : Term) → term ≡ vterm.Pair a b → result ≡ a }
{
    match term {
        Term::Pair(left, right) => one_of(left, right),
        other => other,
    }
}

/// The right part of a pair, and any other term itself.
fn right_of(term: Term) -> Term
    ensures right { (a b : Term) → term ≡ vterm.Pair a b → result ≡ b }
{
    match term {
        Term::Pair(left, right) => one_of(right, left),
        other => other,
    }
}

/// The left part of a pair, where the term is one, else `fst` of the term. It fails for want of memory alone.
pub fn folded_fst(alloc: Global, pair: Term) -> Result<Term, AllocError>
    ensures folded { IfOk result (λ t. term_tree t ≡ folding (t_fst (term_tree pair))) }
{
    if is_pair(&pair) {
        Ok(left_of(pair))
    } else {
        term_fst(boxed(alloc, Ok(pair)))
    }
}

/// The right part of a pair, where the term is one, else `snd` of the term. It fails for want of memory alone.
pub fn folded_snd(alloc: Global, pair: Term) -> Result<Term, AllocError>
    ensures folded { IfOk result (λ t. term_tree t ≡ folding (t_snd (term_tree pair))) }
{
    if is_pair(&pair) {
        Ok(right_of(pair))
    } else {
        term_snd(boxed(alloc, Ok(pair)))
    }
}

/// The other truth value, where the term is a literal, else `not` of the term. It fails for want of memory alone.
pub fn folded_not(alloc: Global, term: Term) -> Result<Term, AllocError>
    ensures folded { IfOk result (λ t. term_tree t ≡ folding (t_not (term_tree term))) }
{
    match bool_of(&term) {
        Some(truth) => Ok(Term::Bool(!truth)),
        None => term_not(boxed(alloc, Ok(term))),
    }
}

/// What an operation gives, where both terms are literals of words, else the operation on them. It fails for want of
/// memory alone.
pub fn folded_bin(alloc: Global, op: Op, left: Term, right: Term) -> Result<Term, AllocError>
    ensures folded { IfOk result (λ t. term_tree t ≡ folding (t_bin op (term_tree left) (term_tree right))) }
{
    match words_of(&left, &right) {
        Some((x, y)) => Ok(result_of(op, x, y)),
        None => term_bin(op, boxed(alloc, Ok(left)), boxed(alloc, Ok(right))),
    }
}

/// Whether two values of the monotype are equal, where both terms are literals of it, else `eq` of them. It fails for
/// want of memory alone.
pub fn folded_eq(alloc: Global, mono: Mono, left: Term, right: Term) -> Result<Term, AllocError>
    ensures folded { IfOk result (λ t. term_tree t ≡ folding (t_eq (mono_tree mono) (term_tree left) (term_tree right))) }
{
    match compared(&mono, &left, &right) {
        Some(truth) => Ok(Term::Bool(truth)),
        None => term_eq(Ok(mono), boxed(alloc, Ok(left)), boxed(alloc, Ok(right))),
    }
}

/// The term that is chosen, where the test is a literal, else `sel` of the three. It fails for want of memory alone.
pub fn folded_sel(
    alloc: Global,
    mono: Mono,
    test: Term,
    on_true: Term,
    on_false: Term,
) -> Result<Term, AllocError>
    ensures folded { IfOk result (λ t. term_tree t ≡ folding (t_sel (mono_tree mono) (term_tree test) (term_tree on_true) (term_tree on_false))) }
{
    match bool_of(&test) {
        Some(true) => Ok(on_true),
        Some(false) => Ok(on_false),
        None => term_sel(
            Ok(mono),
            boxed(alloc, Ok(test)),
            boxed(alloc, Ok(on_true)),
            boxed(alloc, Ok(on_false)),
        ),
    }
}
