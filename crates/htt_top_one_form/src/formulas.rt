//! Formulas and types: the triple of a program that asks nothing of its start and claims a number of
//! its result.

ghost use Rattle.std.specs.Prelude.{◌≡◌};
ghost use Rattle.htt_parser_trees.specs.MonoLevels.{raw_mono_tree};
ghost use Rattle.htt_parser_trees.specs.MonoViews.{raw_right_tree};
ghost use Rattle.htt_parser_trees.specs.TreeLevels.{raw_triple_tree};
ghost use Rattle.htt_parser_trees.specs.TreeViews.{raw_conj_tree, raw_disj_tree, raw_fatom_tree, raw_formula_tree, raw_rel_tree, raw_star_tree, raw_ty_tree};
ghost use Rattle.htt_top_one_form.specs.Matching.{binds, both_claims, claimed, conj_claim, disj_claim, equation, fatom_claim, formula_claim, is_nothing, is_word, is_word_name, star_claim, triple_claim};

use crate::names::is_named;
use crate::terms::{Operand, rel_operand};
use htt_parser_trees::{
    Binder, MonoName, RawConj, RawDisj, RawFatom, RawFormula, RawMono, RawRel, RawRight, RawStar,
    RawTriple, RawTy,
};

/// What a formula says: nothing, or that `x` is a number.
#[derive(Clone, Copy, Debug, PartialEq, Eq)]
pub enum Claim {
    Nothing,
    Result(u64),
}

fn is_word_name(name: MonoName) -> bool
    ensures { result ≡ is_word_name name }
{
    matches!(name, MonoName::Word { .. })
}

#[tactic(auto, using(crate::proofs::Claims::rights))]
fn is_nothing(right: &RawRight) -> bool
    ensures { result ≡ is_nothing (raw_right_tree right.now) }
{
    match right {
        RawRight::Nothing => true,
        RawRight::Times(_) => false,
    }
}

/// Whether a monotype is `word`.
#[tactic(auto, using(crate::proofs::Claims::word_matched))]
fn is_word(mono: &RawMono) -> bool
    ensures { result ≡ is_word (raw_mono_tree mono.now) }
{
    mono.brackets.as_slice().is_empty() && is_word_name(mono.name) && is_nothing(&mono.right)
}

/// The claim of an equation with this left side and this right side.
fn equation(text: &[u8], left: &RawRel, right: &RawRel) -> Option<Claim>
    ensures { result ≡ equation text.now (raw_rel_tree left.now) (raw_rel_tree right.now) }
{
    match (rel_operand(left), rel_operand(right)) {
        (Some(Operand::Name(name)), Some(Operand::Number(number))) if is_named(text, name, b"x") =>
            { Some(Claim::Result(number)) }
        _ => None,
    }
}

#[tactic(auto, using(crate::proofs::Claims::fatoms))]
fn fatom_claim(text: &[u8], fatom: &RawFatom) -> Option<Claim>
    ensures { result ≡ fatom_claim text.now (raw_fatom_tree fatom.now) }
{
    match fatom {
        RawFatom::Tt { .. } => Some(Claim::Nothing),
        RawFatom::Eq { left, mono, right } => {
            if is_word(mono) {
                equation(text, left.get(), right.get())
            } else {
                None
            }
        }
        _ => None,
    }
}

#[tactic(auto, using(crate::proofs::Claims::stars))]
fn star_claim(text: &[u8], star: &RawStar) -> Option<Claim>
    ensures { result ≡ star_claim text.now (raw_star_tree star.now) }
{
    match star {
        RawStar::Fatom(fatom) => fatom_claim(text, fatom),
        RawStar::Times(..) => None,
    }
}

#[tactic(auto, using(crate::proofs::Claims::conjs))]
fn conj_claim(text: &[u8], conj: &RawConj) -> Option<Claim>
    ensures { result ≡ conj_claim text.now (raw_conj_tree conj.now) }
{
    match conj {
        RawConj::Star(star) => star_claim(text, star),
        RawConj::And(..) => None,
    }
}

#[tactic(auto, using(crate::proofs::Claims::disjs))]
fn disj_claim(text: &[u8], disj: &RawDisj) -> Option<Claim>
    ensures { result ≡ disj_claim text.now (raw_disj_tree disj.now) }
{
    match disj {
        RawDisj::Conj(conj) => conj_claim(text, conj),
        RawDisj::Or(..) => None,
    }
}

#[tactic(auto, using(crate::proofs::Claims::formulas))]
fn formula_claim(text: &[u8], formula: &RawFormula) -> Option<Claim>
    ensures { result ≡ formula_claim text.now (raw_formula_tree formula.now) }
{
    match formula {
        RawFormula::Disj(disj) => disj_claim(text, disj.get()),
        _ => None,
    }
}

/// Whether a binder binds this word.
fn binds(text: &[u8], binder: Binder, word: &[u8]) -> bool
    ensures { result ≡ binds text.now binder word.now }
{
    match binder {
        Binder::Name(name) => is_named(text, name, word),
        Binder::Blank => false,
    }
}

/// The number that is claimed where nothing is asked before.
fn both_claims(pre: Option<Claim>, post: Option<Claim>) -> Option<u64>
    ensures { result ≡ both_claims pre post }
{
    match (pre, post) {
        (Some(Claim::Nothing), Some(Claim::Result(number))) => Some(number),
        _ => None,
    }
}

#[tactic(auto, using(crate::proofs::Claims::triple_matched))]
fn triple_claim(text: &[u8], triple: &RawTriple) -> Option<u64>
    ensures { result ≡ triple_claim text.now (raw_triple_tree triple.now) }
{
    if binds(text, triple.name, b"x") && is_word(&triple.result) {
        both_claims(
            formula_claim(text, &triple.pre),
            formula_claim(text, &triple.post),
        )
    } else {
        None
    }
}

/// The number that the type of a program claims of its result.
#[tactic(auto, using(crate::proofs::Claims::types))]
pub(crate) fn claimed(text: &[u8], ty: &RawTy) -> Option<u64>
    ensures { result ≡ claimed text.now (raw_ty_tree ty.now) }
{
    match ty {
        RawTy::Hoare { triple, .. } => triple_claim(text, triple.get()),
        _ => None,
    }
}
