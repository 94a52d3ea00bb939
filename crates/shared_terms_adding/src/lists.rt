//! The roots of triples, of lists of terms, of recursive functions and of computations.

ghost use Rattle.std.specs.Prelude.{◌≡◌, drop};
ghost use Rattle.htt_syntax.specs.Trees.{x_body};
ghost use Rattle.htt_syntax.specs.Views.{term_tree};
ghost use Rattle.htt_syntax.specs.Levels.{term_trees, params_tree, steps_tree, triple_tree, comp_tree};
ghost use Rattle.shared_terms_rows.specs.Parts.{of_triple, of_terms, of_fix, of_comp};
ghost use Rattle.theory_rows_inversion.specs.Inversion.{form_at};
ghost use Rattle.shared_terms_adding.specs.Roots.{root_of};
ghost use Rattle.shared_terms_adding.specs.Views.{part_in};

use crate::tree::Tree;
use htt_syntax::{Comp, Fix, Term, Triple};
use shared_terms_rows::{CompForm, FixForm, Form};
use sqlite_items::Boxed;

#[tactic(auto, unfolding(crate::specs::Roots::root_of, theory_rows_inversion::specs::Inversion::form_at, theory_rows_inversion::specs::Inversion::parts_at, shared_terms_rows::specs::Forms::slots, htt_syntax::specs::Levels::triple_tree))]
pub(crate) fn first_of_triple(triple: &Triple) -> Option<Tree<'_>>
    ensures first { part_in result ≡ (root_of (of_triple (triple_tree triple.now))).first }
{
    Some(Tree::Formula(&triple.pre))
}

#[tactic(auto, unfolding(crate::specs::Roots::root_of, theory_rows_inversion::specs::Inversion::form_at, theory_rows_inversion::specs::Inversion::parts_at, shared_terms_rows::specs::Forms::slots, htt_syntax::specs::Levels::triple_tree))]
pub(crate) fn second_of_triple(triple: &Triple) -> Option<Tree<'_>>
    ensures second { part_in result ≡ (root_of (of_triple (triple_tree triple.now))).second }
{
    Some(Tree::Mono(&triple.result))
}

#[tactic(auto, unfolding(crate::specs::Roots::root_of, theory_rows_inversion::specs::Inversion::form_at, theory_rows_inversion::specs::Inversion::parts_at, shared_terms_rows::specs::Forms::slots, htt_syntax::specs::Levels::triple_tree))]
pub(crate) fn third_of_triple(triple: &Triple) -> Option<Tree<'_>>
    ensures third { part_in result ≡ (root_of (of_triple (triple_tree triple.now))).third }
{
    Some(Tree::Formula(&triple.post))
}

#[tactic(auto, using(crate::proofs::Opening::no_term_left, crate::proofs::Opening::terms_read), unfolding(theory_rows_inversion::specs::Inversion::form_at))]
pub(crate) fn form_of_terms(terms: &[Term]) -> Form
    ensures form { result ≡ form_at (of_terms (term_trees terms.now)) }
{
    match terms.split_first() {
        Some((_, _)) => Form::MoreTerms,
        None => Form::NoTerms,
    }
}

#[tactic(auto, using(crate::proofs::Opening::no_term_left, crate::proofs::Opening::terms_read), unfolding(crate::specs::Roots::root_of, theory_rows_inversion::specs::Inversion::form_at, theory_rows_inversion::specs::Inversion::parts_at, shared_terms_rows::specs::Forms::slots))]
pub(crate) fn first_of_terms(terms: &[Term]) -> Option<Tree<'_>>
    ensures first { part_in result ≡ (root_of (of_terms (term_trees terms.now))).first }
{
    match terms.split_first() {
        Some((term, _)) => Some(Tree::Term(term)),
        None => None,
    }
}

#[tactic(auto, using(crate::proofs::Opening::no_term_left, crate::proofs::Opening::terms_read), unfolding(crate::specs::Roots::root_of, theory_rows_inversion::specs::Inversion::form_at, theory_rows_inversion::specs::Inversion::parts_at, shared_terms_rows::specs::Forms::slots))]
pub(crate) fn second_of_terms(terms: &[Term]) -> Option<Tree<'_>>
    ensures second { part_in result ≡ (root_of (of_terms (term_trees terms.now))).second }
{
    match terms.split_first() {
        Some((_, others)) => Some(Tree::Terms(others)),
        None => None,
    }
}

#[tactic(auto, using(crate::proofs::Opening::no_param_left, crate::proofs::Opening::param_there), unfolding(theory_rows_inversion::specs::Inversion::form_at))]
pub(crate) fn form_of_fix(fix: &Boxed<Fix>, from: usize) -> Form
    ensures form { result ≡ form_at (of_fix (params_tree (drop from fix.now.params) (x_body (triple_tree fix.now.triple) (comp_tree fix.now.body)))) }
{
    if from < fix.get().params.as_slice().len() {
        Form::Fix(FixForm::Param)
    } else {
        Form::Fix(FixForm::Body)
    }
}

#[tactic(auto, using(crate::proofs::Opening::no_param_left, crate::proofs::Opening::param_there), unfolding(crate::specs::Roots::root_of, theory_rows_inversion::specs::Inversion::form_at, theory_rows_inversion::specs::Inversion::parts_at, shared_terms_rows::specs::Forms::slots, shared_terms_rows::specs::Forms::fix_slots, htt_syntax::specs::Levels::comp_tree))]
pub(crate) fn first_of_fix(fix: &Boxed<Fix>, from: usize) -> Option<Tree<'_>>
    ensures first { part_in result ≡ (root_of (of_fix (params_tree (drop from fix.now.params) (x_body (triple_tree fix.now.triple) (comp_tree fix.now.body))))).first }
{
    let params = fix.get().params.as_slice();
    if from < params.len() {
        Some(Tree::Ty(&params[from]))
    } else {
        Some(Tree::FixTriple(fix))
    }
}

#[tactic(auto, using(crate::proofs::Opening::no_param_left, crate::proofs::Opening::param_there), unfolding(crate::specs::Roots::root_of, theory_rows_inversion::specs::Inversion::form_at, theory_rows_inversion::specs::Inversion::parts_at, shared_terms_rows::specs::Forms::slots, shared_terms_rows::specs::Forms::fix_slots, htt_syntax::specs::Levels::comp_tree))]
pub(crate) fn second_of_fix(fix: &Boxed<Fix>, from: usize) -> Option<Tree<'_>>
    ensures second { part_in result ≡ (root_of (of_fix (params_tree (drop from fix.now.params) (x_body (triple_tree fix.now.triple) (comp_tree fix.now.body))))).second }
{
    let params = fix.get().params.as_slice();
    if from < params.len() {
        Some(Tree::Fix(fix, from + 1))
    } else {
        Some(Tree::Comp(&fix.get().body, 0))
    }
}

#[tactic(auto, using(crate::proofs::Opening::no_step_left, crate::proofs::Opening::step_there), unfolding(theory_rows_inversion::specs::Inversion::form_at))]
pub(crate) fn form_of_comp(comp: &Comp, from: usize) -> Form
    ensures form { result ≡ form_at (of_comp (steps_tree (drop from comp.now.steps) (term_tree comp.now.result))) }
{
    if from < comp.steps.as_slice().len() {
        Form::Comp(CompForm::Step)
    } else {
        Form::Comp(CompForm::Ret)
    }
}

#[tactic(auto, using(crate::proofs::Opening::no_step_left, crate::proofs::Opening::step_there), unfolding(crate::specs::Roots::root_of, theory_rows_inversion::specs::Inversion::form_at, theory_rows_inversion::specs::Inversion::parts_at, shared_terms_rows::specs::Forms::slots, shared_terms_rows::specs::Forms::comp_slots))]
pub(crate) fn first_of_comp(comp: &Comp, from: usize) -> Option<Tree<'_>>
    ensures first { part_in result ≡ (root_of (of_comp (steps_tree (drop from comp.now.steps) (term_tree comp.now.result)))).first }
{
    let steps = comp.steps.as_slice();
    if from < steps.len() {
        Some(Tree::Step(&steps[from]))
    } else {
        Some(Tree::Term(&comp.result))
    }
}

#[tactic(auto, using(crate::proofs::Opening::no_step_left, crate::proofs::Opening::step_there), unfolding(crate::specs::Roots::root_of, theory_rows_inversion::specs::Inversion::form_at, theory_rows_inversion::specs::Inversion::parts_at, shared_terms_rows::specs::Forms::slots, shared_terms_rows::specs::Forms::comp_slots))]
pub(crate) fn second_of_comp(comp: &Comp, from: usize) -> Option<Tree<'_>>
    ensures second { part_in result ≡ (root_of (of_comp (steps_tree (drop from comp.now.steps) (term_tree comp.now.result)))).second }
{
    let steps = comp.steps.as_slice();
    if from < steps.len() {
        Some(Tree::Comp(comp, from + 1))
    } else {
        None
    }
}
