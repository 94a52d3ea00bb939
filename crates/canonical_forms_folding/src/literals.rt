//! What is seen of a term at its root: the literals, and the pairs.

ghost use Rattle.std.specs.Prelude.{◌≡◌, option_map, None, nat_eq};
ghost use Rattle.theory_values.specs.Values.{bool_eq};
ghost use Rattle.std.specs.Bool.{OnTrue, OnFalse};
ghost use Rattle.htt_syntax.specs.declared.tree.Term.{Term};
ghost use Rattle.htt_syntax.specs.declared.tree.Term.TheVariants as vterm;
ghost use Rattle.htt_syntax.specs.Views.{mono_tree, term_tree};
ghost use Rattle.theory_canonical.specs.Folding.{op_literal};
ghost use Rattle.canonical_forms_folding.specs.Seen.{word_of, bool_of, loc_of, pair_of, both, compared};

use htt_syntax::{Mono, Op, Term};

/// The word, where the term is the literal of one.
#[tactic(auto, using(htt_syntax::specs::Levels::term_levels))]
fn word_of(term: &Term) -> Option<u64>
    ensures word { result ≡ word_of (term_tree term.now) }
{
    match term {
        Term::Word(word) => Some(*word),
        Term::Var(_)
        | Term::Val(_)
        | Term::Def(_)
        | Term::App(..)
        | Term::Inst(..)
        | Term::Lam(_)
        | Term::LamT(_)
        | Term::Do(_)
        | Term::Fix(_)
        | Term::Bool(_)
        | Term::Loc(_)
        | Term::Unit
        | Term::Pair(..)
        | Term::Fst(_)
        | Term::Snd(_)
        | Term::Un(_)
        | Term::Bin(..)
        | Term::Eq(..)
        | Term::Sel(..)
        | Term::Ann(..)
        | Term::Made(..)
        | Term::At(..) => None,
    }
}

/// The truth value, where the term is the literal of one.
#[tactic(auto, using(htt_syntax::specs::Levels::term_levels))]
pub(crate) fn bool_of(term: &Term) -> Option<bool>
    ensures truth { result ≡ bool_of (term_tree term.now) }
{
    match term {
        Term::Bool(truth) => Some(*truth),
        Term::Var(_)
        | Term::Val(_)
        | Term::Def(_)
        | Term::App(..)
        | Term::Inst(..)
        | Term::Lam(_)
        | Term::LamT(_)
        | Term::Do(_)
        | Term::Fix(_)
        | Term::Word(_)
        | Term::Loc(_)
        | Term::Unit
        | Term::Pair(..)
        | Term::Fst(_)
        | Term::Snd(_)
        | Term::Un(_)
        | Term::Bin(..)
        | Term::Eq(..)
        | Term::Sel(..)
        | Term::Ann(..)
        | Term::Made(..)
        | Term::At(..) => None,
    }
}

/// The location, where the term is the literal of one.
#[tactic(auto, using(htt_syntax::specs::Levels::term_levels))]
fn loc_of(term: &Term) -> Option<u64>
    ensures place { result ≡ loc_of (term_tree term.now) }
{
    match term {
        Term::Loc(place) => Some(*place),
        Term::Var(_)
        | Term::Val(_)
        | Term::Def(_)
        | Term::App(..)
        | Term::Inst(..)
        | Term::Lam(_)
        | Term::LamT(_)
        | Term::Do(_)
        | Term::Fix(_)
        | Term::Word(_)
        | Term::Bool(_)
        | Term::Unit
        | Term::Pair(..)
        | Term::Fst(_)
        | Term::Snd(_)
        | Term::Un(_)
        | Term::Bin(..)
        | Term::Eq(..)
        | Term::Sel(..)
        | Term::Ann(..)
        | Term::Made(..)
        | Term::At(..) => None,
    }
}

/// Whether the term is a pair.
#[tactic(auto, using(htt_syntax::specs::Levels::term_levels))]
pub(crate) fn is_pair(term: &Term) -> bool
    ensures pair { OnTrue result ((a : Term) × (b : Term) × (term.now ≡ vterm.Pair a b)) }
    ensures no_pair { OnFalse result (pair_of (term_tree term.now) ≡ None) }
{
    match term {
        Term::Pair(..) => true,
        Term::Var(_)
        | Term::Val(_)
        | Term::Def(_)
        | Term::App(..)
        | Term::Inst(..)
        | Term::Lam(_)
        | Term::LamT(_)
        | Term::Do(_)
        | Term::Fix(_)
        | Term::Word(_)
        | Term::Bool(_)
        | Term::Loc(_)
        | Term::Unit
        | Term::Fst(_)
        | Term::Snd(_)
        | Term::Un(_)
        | Term::Bin(..)
        | Term::Eq(..)
        | Term::Sel(..)
        | Term::Ann(..)
        | Term::Made(..)
        | Term::At(..) => false,
    }
}

/// The words, where both terms are literals of one.
pub(crate) fn words_of(left: &Term, right: &Term) -> Option<(u64, u64)>
    ensures words { result ≡ both (word_of (term_tree left.now)) (word_of (term_tree right.now)) }
{
    match (word_of(left), word_of(right)) {
        (Some(left), Some(right)) => Some((left, right)),
        (Some(_), None) => None,
        (None, _) => None,
    }
}

/// Whether two literals of a monotype are equal, where values of it are compared and both are literals of it.
#[tactic(auto, using(htt_syntax::specs::Levels::mono_levels))]
pub(crate) fn compared(mono: &Mono, left: &Term, right: &Term) -> Option<bool>
    ensures compared { result ≡ compared (mono_tree mono.now) (term_tree left.now) (term_tree right.now) }
{
    match mono {
        Mono::Word => words_equal(word_of(left), word_of(right)),
        Mono::Bool => truths_equal(bool_of(left), bool_of(right)),
        Mono::Loc => words_equal(loc_of(left), loc_of(right)),
        Mono::Unit | Mono::Pair(..) | Mono::Var(_) => None,
    }
}

fn words_equal(left: Option<u64>, right: Option<u64>) -> Option<bool>
    ensures equal { result ≡ option_map (λ p. nat_eq p.0 p.1) (both left right) }
{
    match (left, right) {
        (Some(left), Some(right)) => Some(left == right),
        (Some(_), None) => None,
        (None, _) => None,
    }
}

fn truths_equal(left: Option<bool>, right: Option<bool>) -> Option<bool>
    ensures equal { result ≡ option_map (λ p. bool_eq p.0 p.1) (both left right) }
{
    match (left, right) {
        (Some(left), Some(right)) => Some(left == right),
        (Some(_), None) => None,
        (None, _) => None,
    }
}

/// The literal that an operation gives for two words.
#[tactic(auto, using(htt_syntax::specs::Levels::term_levels))]
pub(crate) fn result_of(op: Op, x: u64, y: u64) -> Term
    ensures literal { term_tree result ≡ op_literal op x y }
{
    match op {
        Op::Add => Term::Word(x.wrapping_add(y)),
        Op::Sub => Term::Word(x.wrapping_sub(y)),
        Op::Mul => Term::Word(x.wrapping_mul(y)),
        Op::And => Term::Word(x & y),
        Op::Or => Term::Word(x | y),
        Op::Xor => Term::Word(x ^ y),
        Op::Shl => Term::Word(x << (y % 64)),
        Op::Shr => Term::Word(x >> (y % 64)),
        Op::Lt => Term::Bool(x < y),
    }
}
