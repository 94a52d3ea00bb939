//! The roots of steps.

ghost use Rattle.std.specs.Prelude.{◌≡◌, option_map};
ghost use Rattle.htt_syntax.specs.Trees.{s_run};
ghost use Rattle.htt_syntax.specs.Views.{mono_tree, term_tree, step_tree};
ghost use Rattle.shared_terms_rows.specs.Parts.{of_step};
ghost use Rattle.theory_rows_inversion.specs.Inversion.{form_at};
ghost use Rattle.shared_terms_adding.specs.Roots.{root_of};
ghost use Rattle.shared_terms_adding.specs.Views.{part_in};

use crate::tree::Tree;
use htt_syntax::{Mono, Step, Term};
use shared_terms_rows::{Form, StepForm};

#[tactic(auto, using(htt_syntax::specs::Levels::step_levels), unfolding(theory_rows_inversion::specs::Inversion::form_at))]
pub(crate) fn form_of_step(step: &Step) -> Form
    ensures form { result ≡ form_at (of_step (step_tree step.now)) }
{
    match step {
        Step::Run(term, mono) => form_of_run(term, mono),
        Step::Alloc(_, _) => Form::Step(StepForm::Alloc),
        Step::Get(_, _) => Form::Step(StepForm::Get),
        Step::Set(_, _, _) => Form::Step(StepForm::Set),
        Step::Free(_, _) => Form::Step(StepForm::Free),
        Step::If(_, _, _, _) => Form::Step(StepForm::If),
        Step::Claim(_) => Form::Step(StepForm::Claim),
    }
}

#[tactic(auto, using(htt_syntax::specs::Levels::step_levels), unfolding(htt_syntax::specs::Levels::comp_tree, crate::specs::Roots::root_of, theory_rows_inversion::specs::Inversion::form_at, theory_rows_inversion::specs::Inversion::parts_at, shared_terms_rows::specs::Forms::slots, shared_terms_rows::specs::Forms::step_slots))]
pub(crate) fn first_of_step(step: &Step) -> Option<Tree<'_>>
    ensures first { part_in result ≡ (root_of (of_step (step_tree step.now))).first }
{
    match step {
        Step::Run(term, mono) => first_of_run(term, mono),
        Step::Alloc(mono, _) => Some(Tree::Mono(mono)),
        Step::Get(mono, _) => Some(Tree::Mono(mono)),
        Step::Set(mono, _, _) => Some(Tree::Mono(mono)),
        Step::Free(mono, _) => Some(Tree::Mono(mono)),
        Step::If(mono, _, _, _) => Some(Tree::Mono(mono)),
        Step::Claim(formula) => Some(Tree::Formula(formula)),
    }
}

#[tactic(auto, using(htt_syntax::specs::Levels::step_levels), unfolding(htt_syntax::specs::Levels::comp_tree, crate::specs::Roots::root_of, theory_rows_inversion::specs::Inversion::form_at, theory_rows_inversion::specs::Inversion::parts_at, shared_terms_rows::specs::Forms::slots, shared_terms_rows::specs::Forms::step_slots))]
pub(crate) fn second_of_step(step: &Step) -> Option<Tree<'_>>
    ensures second { part_in result ≡ (root_of (of_step (step_tree step.now))).second }
{
    match step {
        Step::Run(term, mono) => second_of_run(term, mono),
        Step::Alloc(_, value) => Some(Tree::Term(value)),
        Step::Get(_, place) => Some(Tree::Term(place)),
        Step::Set(_, place, _) => Some(Tree::Term(place)),
        Step::Free(_, place) => Some(Tree::Term(place)),
        Step::If(_, test, _, _) => Some(Tree::Term(test)),
        Step::Claim(_) => None,
    }
}

#[tactic(auto, using(htt_syntax::specs::Levels::step_levels), unfolding(htt_syntax::specs::Levels::comp_tree, crate::specs::Roots::root_of, theory_rows_inversion::specs::Inversion::form_at, theory_rows_inversion::specs::Inversion::parts_at, shared_terms_rows::specs::Forms::slots, shared_terms_rows::specs::Forms::step_slots))]
pub(crate) fn third_of_step(step: &Step) -> Option<Tree<'_>>
    ensures third { part_in result ≡ (root_of (of_step (step_tree step.now))).third }
{
    match step {
        Step::Run(term, mono) => third_of_run(term, mono),
        Step::Set(_, _, value) => Some(Tree::Term(value)),
        Step::If(_, _, on_true, _) => Some(Tree::Comp(on_true, 0)),
        Step::Alloc(_, _) | Step::Get(_, _) | Step::Free(_, _) | Step::Claim(_) => None,
    }
}

#[tactic(auto, using(htt_syntax::specs::Levels::step_levels), unfolding(htt_syntax::specs::Levels::comp_tree, crate::specs::Roots::root_of, theory_rows_inversion::specs::Inversion::form_at, theory_rows_inversion::specs::Inversion::parts_at, shared_terms_rows::specs::Forms::slots, shared_terms_rows::specs::Forms::step_slots))]
pub(crate) fn fourth_of_step(step: &Step) -> Option<Tree<'_>>
    ensures fourth { part_in result ≡ (root_of (of_step (step_tree step.now))).fourth }
{
    match step {
        Step::Run(term, mono) => fourth_of_run(term, mono),
        Step::If(_, _, _, on_false) => Some(Tree::Comp(on_false, 0)),
        Step::Alloc(_, _)
        | Step::Get(_, _)
        | Step::Set(_, _, _)
        | Step::Free(_, _)
        | Step::Claim(_) => None,
    }
}

#[tactic(auto, unfolding(theory_rows_inversion::specs::Inversion::form_at))]
fn form_of_run(term: &Term, mono: &Option<Mono>) -> Form
    ensures form { result ≡ form_at (of_step (s_run (term_tree term.now) (option_map mono_tree mono.now))) }
{
    match mono {
        Some(_) => Form::Step(StepForm::Run),
        None => Form::Step(StepForm::RunOpen),
    }
}

#[tactic(auto, unfolding(crate::specs::Roots::root_of, theory_rows_inversion::specs::Inversion::form_at, theory_rows_inversion::specs::Inversion::parts_at, shared_terms_rows::specs::Forms::slots, shared_terms_rows::specs::Forms::step_slots))]
fn first_of_run<'a>(term: &'a Term, mono: &'a Option<Mono>) -> Option<Tree<'a>>
    ensures first { part_in result ≡ (root_of (of_step (s_run (term_tree term.now) (option_map mono_tree mono.now)))).first }
{
    match mono {
        Some(_) => Some(Tree::Term(term)),
        None => Some(Tree::Term(term)),
    }
}

#[tactic(auto, unfolding(crate::specs::Roots::root_of, theory_rows_inversion::specs::Inversion::form_at, theory_rows_inversion::specs::Inversion::parts_at, shared_terms_rows::specs::Forms::slots, shared_terms_rows::specs::Forms::step_slots))]
fn second_of_run<'a>(term: &'a Term, mono: &'a Option<Mono>) -> Option<Tree<'a>>
    ensures second { part_in result ≡ (root_of (of_step (s_run (term_tree term.now) (option_map mono_tree mono.now)))).second }
{
    match mono {
        Some(mono) => Some(Tree::Mono(mono)),
        None => None,
    }
}

#[tactic(auto, unfolding(crate::specs::Roots::root_of, theory_rows_inversion::specs::Inversion::form_at, theory_rows_inversion::specs::Inversion::parts_at, shared_terms_rows::specs::Forms::slots, shared_terms_rows::specs::Forms::step_slots))]
fn third_of_run<'a>(term: &'a Term, mono: &'a Option<Mono>) -> Option<Tree<'a>>
    ensures third { part_in result ≡ (root_of (of_step (s_run (term_tree term.now) (option_map mono_tree mono.now)))).third }
{
    match mono {
        Some(_) => None,
        None => None,
    }
}

#[tactic(auto, unfolding(crate::specs::Roots::root_of, theory_rows_inversion::specs::Inversion::form_at, theory_rows_inversion::specs::Inversion::parts_at, shared_terms_rows::specs::Forms::slots, shared_terms_rows::specs::Forms::step_slots))]
fn fourth_of_run<'a>(term: &'a Term, mono: &'a Option<Mono>) -> Option<Tree<'a>>
    ensures fourth { part_in result ≡ (root_of (of_step (s_run (term_tree term.now) (option_map mono_tree mono.now)))).fourth }
{
    match mono {
        Some(_) => None,
        None => None,
    }
}
