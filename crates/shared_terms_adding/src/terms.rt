//! The roots of terms.

ghost use Rattle.std.specs.Prelude.{◌≡◌};
ghost use Rattle.htt_syntax.specs.Views.{term_tree};
ghost use Rattle.shared_terms_rows.specs.Parts.{of_term};
ghost use Rattle.theory_rows_inversion.specs.Inversion.{form_at};
ghost use Rattle.shared_terms_adding.specs.Roots.{root_of};
ghost use Rattle.shared_terms_adding.specs.Views.{part_in};

use crate::tree::Tree;
use htt_syntax::Term;
use shared_terms_rows::{Form, Operation, TermForm};

#[tactic(auto, using(htt_syntax::specs::Levels::term_levels, crate::proofs::Opening::operation_told), unfolding(theory_rows_inversion::specs::Inversion::form_at))]
pub(crate) fn form_of_term(term: &Term) -> Form
    ensures form { result ≡ form_at (of_term (term_tree term.now)) }
{
    match term {
        Term::Var(index) => Form::Term(TermForm::Var(*index)),
        Term::Val(number) => Form::Term(TermForm::Val(*number)),
        Term::Def(number) => Form::Term(TermForm::Def(*number)),
        Term::App(_, _) => Form::Term(TermForm::App),
        Term::Inst(_, _) => Form::Term(TermForm::Inst),
        Term::Lam(_) => Form::Term(TermForm::Lam),
        Term::LamT(_) => Form::Term(TermForm::LamT),
        Term::Do(_) => Form::Term(TermForm::Do),
        Term::Fix(fix) => Form::Term(TermForm::Fix(fix.get().at)),
        Term::Word(word) => Form::Term(TermForm::Word(*word)),
        Term::Bool(truth) => Form::Term(TermForm::Bool(*truth)),
        Term::Loc(place) => Form::Term(TermForm::Loc(*place)),
        Term::Unit => Form::Term(TermForm::Unit),
        Term::Pair(_, _) => Form::Term(TermForm::Pair),
        Term::Fst(_) => Form::Term(TermForm::Fst),
        Term::Snd(_) => Form::Term(TermForm::Snd),
        Term::Un(_) => Form::Term(TermForm::Un),
        Term::Bin(op, _, _) => Form::Term(TermForm::Bin(Operation::of(*op))),
        Term::Eq(_, _, _) => Form::Term(TermForm::Eq),
        Term::Sel(_, _, _, _) => Form::Term(TermForm::Sel),
        Term::Ann(_, _) => Form::Term(TermForm::Ann),
        Term::Made(number, _) => Form::Term(TermForm::Made(*number)),
        Term::At(at, _) => Form::Term(TermForm::At(*at)),
    }
}

#[tactic(auto, using(htt_syntax::specs::Levels::term_levels), unfolding(htt_syntax::specs::Levels::comp_tree, htt_syntax::specs::Levels::fix_tree, crate::specs::Roots::root_of, theory_rows_inversion::specs::Inversion::form_at, theory_rows_inversion::specs::Inversion::parts_at, shared_terms_rows::specs::Forms::slots, shared_terms_rows::specs::Forms::term_slots))]
pub(crate) fn first_of_term(term: &Term) -> Option<Tree<'_>>
    ensures first { part_in result ≡ (root_of (of_term (term_tree term.now))).first }
{
    match term {
        Term::App(function, _) => Some(Tree::Term(function.get())),
        Term::Inst(function, _) => Some(Tree::Term(function.get())),
        Term::Lam(body) => Some(Tree::Term(body.get())),
        Term::LamT(body) => Some(Tree::Term(body.get())),
        Term::Do(comp) => Some(Tree::Comp(comp.get(), 0)),
        Term::Fix(fix) => Some(Tree::Fix(fix, 0)),
        Term::Pair(left, _) => Some(Tree::Term(left.get())),
        Term::Fst(pair) => Some(Tree::Term(pair.get())),
        Term::Snd(pair) => Some(Tree::Term(pair.get())),
        Term::Un(term) => Some(Tree::Term(term.get())),
        Term::Bin(_, left, _) => Some(Tree::Term(left.get())),
        Term::Eq(mono, _, _) => Some(Tree::Mono(mono)),
        Term::Sel(mono, _, _, _) => Some(Tree::Mono(mono)),
        Term::Ann(term, _) => Some(Tree::Term(term.get())),
        Term::Made(_, values) => Some(Tree::Terms(values.as_slice())),
        Term::At(_, term) => Some(Tree::Term(term.get())),
        Term::Var(_)
        | Term::Val(_)
        | Term::Def(_)
        | Term::Word(_)
        | Term::Bool(_)
        | Term::Loc(_)
        | Term::Unit => None,
    }
}

#[tactic(auto, using(htt_syntax::specs::Levels::term_levels), unfolding(htt_syntax::specs::Levels::comp_tree, htt_syntax::specs::Levels::fix_tree, crate::specs::Roots::root_of, theory_rows_inversion::specs::Inversion::form_at, theory_rows_inversion::specs::Inversion::parts_at, shared_terms_rows::specs::Forms::slots, shared_terms_rows::specs::Forms::term_slots))]
pub(crate) fn second_of_term(term: &Term) -> Option<Tree<'_>>
    ensures second { part_in result ≡ (root_of (of_term (term_tree term.now))).second }
{
    match term {
        Term::App(_, argument) => Some(Tree::Term(argument.get())),
        Term::Inst(_, mono) => Some(Tree::Mono(mono)),
        Term::Pair(_, right) => Some(Tree::Term(right.get())),
        Term::Bin(_, _, right) => Some(Tree::Term(right.get())),
        Term::Eq(_, left, _) => Some(Tree::Term(left.get())),
        Term::Sel(_, test, _, _) => Some(Tree::Term(test.get())),
        Term::Ann(_, ty) => Some(Tree::Ty(ty.get())),
        Term::Var(_)
        | Term::Val(_)
        | Term::Def(_)
        | Term::Lam(_)
        | Term::LamT(_)
        | Term::Do(_)
        | Term::Fix(_)
        | Term::Word(_)
        | Term::Bool(_)
        | Term::Loc(_)
        | Term::Unit
        | Term::Fst(_)
        | Term::Snd(_)
        | Term::Un(_)
        | Term::Made(_, _)
        | Term::At(_, _) => None,
    }
}

#[tactic(auto, using(htt_syntax::specs::Levels::term_levels), unfolding(htt_syntax::specs::Levels::comp_tree, htt_syntax::specs::Levels::fix_tree, crate::specs::Roots::root_of, theory_rows_inversion::specs::Inversion::form_at, theory_rows_inversion::specs::Inversion::parts_at, shared_terms_rows::specs::Forms::slots, shared_terms_rows::specs::Forms::term_slots))]
pub(crate) fn third_of_term(term: &Term) -> Option<Tree<'_>>
    ensures third { part_in result ≡ (root_of (of_term (term_tree term.now))).third }
{
    match term {
        Term::Eq(_, _, right) => Some(Tree::Term(right.get())),
        Term::Sel(_, _, on_true, _) => Some(Tree::Term(on_true.get())),
        Term::Var(_)
        | Term::Val(_)
        | Term::Def(_)
        | Term::App(_, _)
        | Term::Inst(_, _)
        | Term::Lam(_)
        | Term::LamT(_)
        | Term::Do(_)
        | Term::Fix(_)
        | Term::Word(_)
        | Term::Bool(_)
        | Term::Loc(_)
        | Term::Unit
        | Term::Pair(_, _)
        | Term::Fst(_)
        | Term::Snd(_)
        | Term::Un(_)
        | Term::Bin(_, _, _)
        | Term::Ann(_, _)
        | Term::Made(_, _)
        | Term::At(_, _) => None,
    }
}

#[tactic(auto, using(htt_syntax::specs::Levels::term_levels), unfolding(htt_syntax::specs::Levels::comp_tree, htt_syntax::specs::Levels::fix_tree, crate::specs::Roots::root_of, theory_rows_inversion::specs::Inversion::form_at, theory_rows_inversion::specs::Inversion::parts_at, shared_terms_rows::specs::Forms::slots, shared_terms_rows::specs::Forms::term_slots))]
pub(crate) fn fourth_of_term(term: &Term) -> Option<Tree<'_>>
    ensures fourth { part_in result ≡ (root_of (of_term (term_tree term.now))).fourth }
{
    match term {
        Term::Sel(_, _, _, on_false) => Some(Tree::Term(on_false.get())),
        Term::Var(_)
        | Term::Val(_)
        | Term::Def(_)
        | Term::App(_, _)
        | Term::Inst(_, _)
        | Term::Lam(_)
        | Term::LamT(_)
        | Term::Do(_)
        | Term::Fix(_)
        | Term::Word(_)
        | Term::Bool(_)
        | Term::Loc(_)
        | Term::Unit
        | Term::Pair(_, _)
        | Term::Fst(_)
        | Term::Snd(_)
        | Term::Un(_)
        | Term::Bin(_, _, _)
        | Term::Eq(_, _, _)
        | Term::Ann(_, _)
        | Term::Made(_, _)
        | Term::At(_, _) => None,
    }
}
