//! Whether a term stays as it is when operations on literals, parts of pairs and choices by a literal are computed.

ghost use Rattle.std.specs.Prelude.{◌≡◌};
ghost use Rattle.htt_syntax.specs.Trees.{t_fst, t_snd, t_not, t_bin, t_eq, t_sel};
ghost use Rattle.htt_syntax.specs.Views.{mono_tree, term_tree};
ghost use Rattle.theory_canonical.specs.Folding.{contractum};
ghost use Rattle.theory_canonical_decided.specs.Standings.{is_kept};
ghost use Rattle.canonical_forms_decision.specs.Literals as literals;

use crate::answers::and;
use htt_syntax::{Mono, Op, Term};

/// What of a term folding looks at: a literal, a pair, or what is never folded over.
#[derive(Clone, Copy)]
pub(crate) enum Literal {
    Word,
    Bool,
    Loc,
    Pair,
    Other,
}

#[tactic(auto, using(htt_syntax::specs::Levels::term_levels), unfolding(crate::specs::Literals::literal_of))]
fn literal_of(term: &Term) -> Literal
    ensures literal { result ≡ literals.literal_of (term_tree term.now) }
{
    match term {
        Term::Word(_) => Literal::Word,
        Term::Bool(_) => Literal::Bool,
        Term::Loc(_) => Literal::Loc,
        Term::Pair(_, _) => Literal::Pair,
        Term::Var(_) => Literal::Other,
        Term::Val(_) => Literal::Other,
        Term::Def(_) => Literal::Other,
        Term::App(_, _) => Literal::Other,
        Term::Inst(_, _) => Literal::Other,
        Term::Lam(_) => Literal::Other,
        Term::LamT(_) => Literal::Other,
        Term::Do(_) => Literal::Other,
        Term::Fix(_) => Literal::Other,
        Term::Unit => Literal::Other,
        Term::Fst(_) => Literal::Other,
        Term::Snd(_) => Literal::Other,
        Term::Un(_) => Literal::Other,
        Term::Bin(_, _, _) => Literal::Other,
        Term::Eq(_, _, _) => Literal::Other,
        Term::Sel(_, _, _, _) => Literal::Other,
        Term::Ann(_, _) => Literal::Other,
        Term::Made(_, _) => Literal::Other,
        Term::At(_, _) => Literal::Other,
    }
}

fn is_word(literal: Literal) -> bool
    ensures word { result ≡ literals.is_word literal }
{
    match literal {
        Literal::Word => true,
        Literal::Bool => false,
        Literal::Loc => false,
        Literal::Pair => false,
        Literal::Other => false,
    }
}

fn is_bool(literal: Literal) -> bool
    ensures truth { result ≡ literals.is_bool literal }
{
    match literal {
        Literal::Word => false,
        Literal::Bool => true,
        Literal::Loc => false,
        Literal::Pair => false,
        Literal::Other => false,
    }
}

fn is_loc(literal: Literal) -> bool
    ensures location { result ≡ literals.is_loc literal }
{
    match literal {
        Literal::Word => false,
        Literal::Bool => false,
        Literal::Loc => true,
        Literal::Pair => false,
        Literal::Other => false,
    }
}

fn is_pair(literal: Literal) -> bool
    ensures pair { result ≡ literals.is_pair literal }
{
    match literal {
        Literal::Word => false,
        Literal::Bool => false,
        Literal::Loc => false,
        Literal::Pair => true,
        Literal::Other => false,
    }
}

/// Whether the first part of this stays.
#[tactic(auto, using(crate::proofs::Folded::fst_kept))]
pub(crate) fn fst_stays(pair: &Term) -> bool
    ensures kept { result ≡ is_kept (contractum (t_fst (term_tree pair.now))) }
{
    !is_pair(literal_of(pair))
}

/// Whether the second part of this stays.
#[tactic(auto, using(crate::proofs::Folded::snd_kept))]
pub(crate) fn snd_stays(pair: &Term) -> bool
    ensures kept { result ≡ is_kept (contractum (t_snd (term_tree pair.now))) }
{
    !is_pair(literal_of(pair))
}

/// Whether the negation of this stays.
#[tactic(auto, using(crate::proofs::Folded::not_kept))]
pub(crate) fn not_stays(term: &Term) -> bool
    ensures kept { result ≡ is_kept (contractum (t_not (term_tree term.now))) }
{
    !is_bool(literal_of(term))
}

/// Whether an operation on these stays.
#[tactic(auto, using(crate::proofs::Folded::bin_kept))]
pub(crate) fn bin_stays(op: Op, left: &Term, right: &Term) -> bool
    ensures kept { result ≡ is_kept (contractum (t_bin op (term_tree left.now) (term_tree right.now))) }
{
    !and(is_word(literal_of(left)), is_word(literal_of(right)))
}

/// Whether the comparison of these at the monotype stays.
#[tactic(auto, using(htt_syntax::specs::Levels::mono_levels, crate::proofs::Folded::eq_kept))]
pub(crate) fn eq_stays(mono: &Mono, left: &Term, right: &Term) -> bool
    ensures kept { result ≡ is_kept (contractum (t_eq (mono_tree mono.now) (term_tree left.now) (term_tree right.now))) }
{
    match mono {
        Mono::Word => !and(is_word(literal_of(left)), is_word(literal_of(right))),
        Mono::Bool => !and(is_bool(literal_of(left)), is_bool(literal_of(right))),
        Mono::Loc => !and(is_loc(literal_of(left)), is_loc(literal_of(right))),
        Mono::Unit => true,
        Mono::Pair(_, _) => true,
        Mono::Var(_) => true,
    }
}

/// Whether a choice by this test stays.
#[tactic(auto, using(crate::proofs::Folded::sel_kept))]
pub(crate) fn sel_stays(mono: &Mono, test: &Term, on_true: &Term, on_false: &Term) -> bool
    ensures kept { result ≡ is_kept (contractum (t_sel (mono_tree mono.now) (term_tree test.now) (term_tree on_true.now) (term_tree on_false.now))) }
{
    !is_bool(literal_of(test))
}
