//! The root of a tree, whatever its kind: its form, and what stands in each slot of the form.

ghost use Rattle.std.specs.Prelude.{◌≡◌};
ghost use Rattle.theory_rows_inversion.specs.Inversion.{form_at};
ghost use Rattle.shared_terms_adding.specs.Roots.{root_of};
ghost use Rattle.shared_terms_adding.specs.Views.{part_of, part_in};

use crate::formulas::{first_of_formula, form_of_formula, second_of_formula, third_of_formula};
use crate::lists::{
    first_of_comp, first_of_fix, first_of_terms, first_of_triple, form_of_comp, form_of_fix,
    form_of_terms, second_of_comp, second_of_fix, second_of_terms, second_of_triple,
    third_of_triple,
};
use crate::steps::{first_of_step, form_of_step, fourth_of_step, second_of_step, third_of_step};
use crate::terms::{first_of_term, form_of_term, fourth_of_term, second_of_term, third_of_term};
use crate::tree::Tree;
use crate::types::{
    first_of_mono, first_of_ty, form_of_mono, form_of_ty, second_of_mono, second_of_ty,
};
use shared_terms_rows::Form;

impl<'a> Tree<'a> {
    /// The form of the tree's root.
    #[tactic(auto, unfolding(theory_rows_inversion::specs::Inversion::form_at, htt_syntax::specs::Levels::triple_tree))]
    pub(crate) fn form(self) -> Form
        ensures form { result ≡ form_at (part_of self.entry) }
    {
        match self {
            Tree::Mono(mono) => form_of_mono(mono),
            Tree::Ty(ty) => form_of_ty(ty),
            Tree::Triple(_) => Form::Triple,
            Tree::FixTriple(_) => Form::Triple,
            Tree::Term(term) => form_of_term(term),
            Tree::Terms(terms) => form_of_terms(terms),
            Tree::Fix(fix, from) => form_of_fix(fix, from),
            Tree::Comp(comp, from) => form_of_comp(comp, from),
            Tree::Step(step) => form_of_step(step),
            Tree::Formula(formula) => form_of_formula(formula),
        }
    }

    /// What stands in the first slot of the root, if its form has one.
    #[tactic(auto, unfolding(crate::specs::Roots::root_of, theory_rows_inversion::specs::Inversion::form_at, theory_rows_inversion::specs::Inversion::parts_at, shared_terms_rows::specs::Forms::slots, shared_terms_rows::specs::Forms::mono_slots, shared_terms_rows::specs::Forms::ty_slots, shared_terms_rows::specs::Forms::fix_slots, shared_terms_rows::specs::Forms::comp_slots, shared_terms_rows::specs::Forms::formula_slots, htt_syntax::specs::Levels::triple_tree))]
    pub(crate) fn first(self) -> Option<Tree<'a>>
        ensures first { part_in result ≡ (root_of (part_of self.entry)).first }
    {
        match self {
            Tree::Mono(mono) => first_of_mono(mono),
            Tree::Ty(ty) => first_of_ty(ty),
            Tree::Triple(triple) => first_of_triple(triple.get()),
            Tree::FixTriple(fix) => first_of_triple(&fix.get().triple),
            Tree::Term(term) => first_of_term(term),
            Tree::Terms(terms) => first_of_terms(terms),
            Tree::Fix(fix, from) => first_of_fix(fix, from),
            Tree::Comp(comp, from) => first_of_comp(comp, from),
            Tree::Step(step) => first_of_step(step),
            Tree::Formula(formula) => first_of_formula(formula),
        }
    }

    /// What stands in the second slot of the root, if its form has one.
    #[tactic(auto, unfolding(crate::specs::Roots::root_of, theory_rows_inversion::specs::Inversion::form_at, theory_rows_inversion::specs::Inversion::parts_at, shared_terms_rows::specs::Forms::slots, shared_terms_rows::specs::Forms::mono_slots, shared_terms_rows::specs::Forms::ty_slots, shared_terms_rows::specs::Forms::fix_slots, shared_terms_rows::specs::Forms::comp_slots, shared_terms_rows::specs::Forms::formula_slots, htt_syntax::specs::Levels::triple_tree))]
    pub(crate) fn second(self) -> Option<Tree<'a>>
        ensures second { part_in result ≡ (root_of (part_of self.entry)).second }
    {
        match self {
            Tree::Mono(mono) => second_of_mono(mono),
            Tree::Ty(ty) => second_of_ty(ty),
            Tree::Triple(triple) => second_of_triple(triple.get()),
            Tree::FixTriple(fix) => second_of_triple(&fix.get().triple),
            Tree::Term(term) => second_of_term(term),
            Tree::Terms(terms) => second_of_terms(terms),
            Tree::Fix(fix, from) => second_of_fix(fix, from),
            Tree::Comp(comp, from) => second_of_comp(comp, from),
            Tree::Step(step) => second_of_step(step),
            Tree::Formula(formula) => second_of_formula(formula),
        }
    }

    /// What stands in the third slot of the root, if its form has one.
    #[tactic(auto, unfolding(crate::specs::Roots::root_of, theory_rows_inversion::specs::Inversion::form_at, theory_rows_inversion::specs::Inversion::parts_at, shared_terms_rows::specs::Forms::slots, shared_terms_rows::specs::Forms::mono_slots, shared_terms_rows::specs::Forms::ty_slots, shared_terms_rows::specs::Forms::fix_slots, shared_terms_rows::specs::Forms::comp_slots, shared_terms_rows::specs::Forms::formula_slots, htt_syntax::specs::Levels::triple_tree))]
    pub(crate) fn third(self) -> Option<Tree<'a>>
        ensures third { part_in result ≡ (root_of (part_of self.entry)).third }
    {
        match self {
            Tree::Mono(_) => None,
            Tree::Ty(_) => None,
            Tree::Triple(triple) => third_of_triple(triple.get()),
            Tree::FixTriple(fix) => third_of_triple(&fix.get().triple),
            Tree::Term(term) => third_of_term(term),
            Tree::Terms(_) => None,
            Tree::Fix(_, _) => None,
            Tree::Comp(_, _) => None,
            Tree::Step(step) => third_of_step(step),
            Tree::Formula(formula) => third_of_formula(formula),
        }
    }

    /// What stands in the fourth slot of the root, if its form has one.
    #[tactic(auto, unfolding(crate::specs::Roots::root_of, theory_rows_inversion::specs::Inversion::form_at, theory_rows_inversion::specs::Inversion::parts_at, shared_terms_rows::specs::Forms::slots, shared_terms_rows::specs::Forms::mono_slots, shared_terms_rows::specs::Forms::ty_slots, shared_terms_rows::specs::Forms::fix_slots, shared_terms_rows::specs::Forms::comp_slots, shared_terms_rows::specs::Forms::formula_slots, htt_syntax::specs::Levels::triple_tree))]
    pub(crate) fn fourth(self) -> Option<Tree<'a>>
        ensures fourth { part_in result ≡ (root_of (part_of self.entry)).fourth }
    {
        match self {
            Tree::Mono(_) => None,
            Tree::Ty(_) => None,
            Tree::Triple(_) => None,
            Tree::FixTriple(_) => None,
            Tree::Term(term) => fourth_of_term(term),
            Tree::Terms(_) => None,
            Tree::Fix(_, _) => None,
            Tree::Comp(_, _) => None,
            Tree::Step(step) => fourth_of_step(step),
            Tree::Formula(_) => None,
        }
    }
}
