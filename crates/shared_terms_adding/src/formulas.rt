//! The roots of formulas.

ghost use Rattle.std.specs.Prelude.{◌≡◌};
ghost use Rattle.htt_syntax.specs.Views.{formula_tree};
ghost use Rattle.shared_terms_rows.specs.Parts.{of_formula};
ghost use Rattle.theory_rows_inversion.specs.Inversion.{form_at};
ghost use Rattle.shared_terms_adding.specs.Roots.{root_of};
ghost use Rattle.shared_terms_adding.specs.Views.{part_in};

use crate::tree::Tree;
use htt_syntax::Formula;
use shared_terms_rows::{Form, FormulaForm};

#[tactic(auto, using(htt_syntax::specs::Levels::formula_levels), unfolding(theory_rows_inversion::specs::Inversion::form_at))]
pub(crate) fn form_of_formula(formula: &Formula) -> Form
    ensures form { result ≡ form_at (of_formula (formula_tree formula.now)) }
{
    match formula {
        Formula::Tt => Form::Formula(FormulaForm::Tt),
        Formula::Ff => Form::Formula(FormulaForm::Ff),
        Formula::And(_, _) => Form::Formula(FormulaForm::And),
        Formula::Or(_, _) => Form::Formula(FormulaForm::Or),
        Formula::Imp(_, _) => Form::Formula(FormulaForm::Imp),
        Formula::AllT(_, _) => Form::Formula(FormulaForm::AllT),
        Formula::ExT(_, _) => Form::Formula(FormulaForm::ExT),
        Formula::AllH(_) => Form::Formula(FormulaForm::AllH),
        Formula::ExH(_) => Form::Formula(FormulaForm::ExH),
        Formula::Emp(heap) => Form::Formula(FormulaForm::Emp(*heap)),
        Formula::Cell(_, heap, _, _) => Form::Formula(FormulaForm::Cell(*heap)),
        Formula::Block(_, heap, _) => Form::Formula(FormulaForm::Block(*heap)),
        Formula::Join(whole, left, right) => Form::Formula(FormulaForm::Join(
            *whole, *left, *right,
        )),
        Formula::Same(left, right) => Form::Formula(FormulaForm::Same(*left, *right)),
        Formula::Eq(_, _, _) => Form::Formula(FormulaForm::Eq),
        Formula::At(at, _) => Form::Formula(FormulaForm::At(*at)),
        Formula::Rec(number, heap, _, _) => Form::Formula(FormulaForm::Rec(*number, *heap)),
    }
}

#[tactic(auto, using(htt_syntax::specs::Levels::formula_levels), unfolding(crate::specs::Roots::root_of, theory_rows_inversion::specs::Inversion::form_at, theory_rows_inversion::specs::Inversion::parts_at, shared_terms_rows::specs::Forms::slots, shared_terms_rows::specs::Forms::formula_slots))]
pub(crate) fn first_of_formula(formula: &Formula) -> Option<Tree<'_>>
    ensures first { part_in result ≡ (root_of (of_formula (formula_tree formula.now))).first }
{
    match formula {
        Formula::And(left, _) => Some(Tree::Formula(left.get())),
        Formula::Or(left, _) => Some(Tree::Formula(left.get())),
        Formula::Imp(left, _) => Some(Tree::Formula(left.get())),
        Formula::AllT(mono, _) => Some(Tree::Mono(mono)),
        Formula::ExT(mono, _) => Some(Tree::Mono(mono)),
        Formula::AllH(body) => Some(Tree::Formula(body.get())),
        Formula::ExH(body) => Some(Tree::Formula(body.get())),
        Formula::Cell(mono, _, _, _) => Some(Tree::Mono(mono)),
        Formula::Block(mono, _, _) => Some(Tree::Mono(mono)),
        Formula::Eq(mono, _, _) => Some(Tree::Mono(mono)),
        Formula::At(_, formula) => Some(Tree::Formula(formula.get())),
        Formula::Rec(_, _, place, _) => Some(Tree::Term(place)),
        Formula::Tt
        | Formula::Ff
        | Formula::Emp(_)
        | Formula::Join(_, _, _)
        | Formula::Same(_, _) => None,
    }
}

#[tactic(auto, using(htt_syntax::specs::Levels::formula_levels), unfolding(crate::specs::Roots::root_of, theory_rows_inversion::specs::Inversion::form_at, theory_rows_inversion::specs::Inversion::parts_at, shared_terms_rows::specs::Forms::slots, shared_terms_rows::specs::Forms::formula_slots))]
pub(crate) fn second_of_formula(formula: &Formula) -> Option<Tree<'_>>
    ensures second { part_in result ≡ (root_of (of_formula (formula_tree formula.now))).second }
{
    match formula {
        Formula::And(_, right) => Some(Tree::Formula(right.get())),
        Formula::Or(_, right) => Some(Tree::Formula(right.get())),
        Formula::Imp(_, right) => Some(Tree::Formula(right.get())),
        Formula::AllT(_, body) => Some(Tree::Formula(body.get())),
        Formula::ExT(_, body) => Some(Tree::Formula(body.get())),
        Formula::Cell(_, _, place, _) => Some(Tree::Term(place)),
        Formula::Block(_, _, place) => Some(Tree::Term(place)),
        Formula::Eq(_, left, _) => Some(Tree::Term(left)),
        Formula::Rec(_, _, _, arguments) => Some(Tree::Terms(arguments.as_slice())),
        Formula::Tt
        | Formula::Ff
        | Formula::AllH(_)
        | Formula::ExH(_)
        | Formula::Emp(_)
        | Formula::Join(_, _, _)
        | Formula::Same(_, _)
        | Formula::At(_, _) => None,
    }
}

#[tactic(auto, using(htt_syntax::specs::Levels::formula_levels), unfolding(crate::specs::Roots::root_of, theory_rows_inversion::specs::Inversion::form_at, theory_rows_inversion::specs::Inversion::parts_at, shared_terms_rows::specs::Forms::slots, shared_terms_rows::specs::Forms::formula_slots))]
pub(crate) fn third_of_formula(formula: &Formula) -> Option<Tree<'_>>
    ensures third { part_in result ≡ (root_of (of_formula (formula_tree formula.now))).third }
{
    match formula {
        Formula::Cell(_, _, _, value) => Some(Tree::Term(value)),
        Formula::Eq(_, _, right) => Some(Tree::Term(right)),
        Formula::Tt
        | Formula::Ff
        | Formula::And(_, _)
        | Formula::Or(_, _)
        | Formula::Imp(_, _)
        | Formula::AllT(_, _)
        | Formula::ExT(_, _)
        | Formula::AllH(_)
        | Formula::ExH(_)
        | Formula::Emp(_)
        | Formula::Block(_, _, _)
        | Formula::Join(_, _, _)
        | Formula::Same(_, _)
        | Formula::At(_, _)
        | Formula::Rec(_, _, _, _) => None,
    }
}
