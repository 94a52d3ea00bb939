//! What each phrase is. A position is passed over.

ghost use Rattle.std.specs.Prelude.{◌≡◌};
ghost use Rattle.htt_syntax.specs.Views.{mono_tree, term_tree, formula_tree};
ghost use Rattle.theory_printing.specs.Brackets.{mono_form, term_form, formula_form};
ghost use Rattle.htt_printer_pieces.specs.Views.{form_of};

use crate::brackets::Shape;
use htt_syntax::{Formula, Mono, Term};

/// What the monotype is.
#[tactic(auto, using(htt_syntax::specs::Levels::mono_levels))]
pub fn mono_shape(mono: &Mono) -> Shape
    ensures told { form_of result ≡ mono_form (mono_tree mono.now) }
{
    match mono {
        Mono::Pair(_, _) => Shape::Operation,
        Mono::Word | Mono::Bool | Mono::Loc | Mono::Unit | Mono::Var(_) => Shape::Atom,
    }
}

/// What the term is.
#[tactic(auto, using(htt_syntax::specs::Levels::term_levels, crate::proofs::FormRows::term_forms))]
pub fn term_shape(term: &Term) -> Shape
    ensures told { form_of result ≡ term_form (term_tree term.now) }
{
    match term {
        Term::App(_, _) | Term::Inst(_, _) => Shape::Application,
        Term::Fst(_) | Term::Snd(_) | Term::Un(_) => Shape::Prefixed,
        Term::Bin(_, _, _) => Shape::Operation,
        Term::Lam(_) | Term::LamT(_) | Term::Do(_) | Term::Fix(_) => Shape::Binding,
        Term::At(_, term) => term_shape(term.get()),
        Term::Var(_) | Term::Val(_) | Term::Def(_) | Term::Made(_, _) => Shape::Atom,
        Term::Word(_) | Term::Bool(_) | Term::Loc(_) | Term::Unit => Shape::Atom,
        Term::Pair(_, _) | Term::Eq(_, _, _) | Term::Sel(_, _, _, _) => Shape::Atom,
        Term::Ann(_, _) => Shape::Atom,
    }
}

/// What the formula is.
#[tactic(auto, using(htt_syntax::specs::Levels::formula_levels, crate::proofs::FormRows::formula_forms))]
pub fn formula_shape(formula: &Formula) -> Shape
    ensures told { form_of result ≡ formula_form (formula_tree formula.now) }
{
    match formula {
        Formula::And(_, _) | Formula::Or(_, _) | Formula::Imp(_, _) => Shape::Operation,
        Formula::AllT(_, _) | Formula::ExT(_, _) => Shape::Binding,
        Formula::AllH(_) | Formula::ExH(_) => Shape::Binding,
        Formula::At(_, formula) => formula_shape(formula.get()),
        Formula::Tt | Formula::Ff | Formula::Emp(_) => Shape::Atom,
        Formula::Cell(_, _, _, _) | Formula::Block(_, _, _) => Shape::Atom,
        Formula::Join(_, _, _) | Formula::Same(_, _) => Shape::Atom,
        Formula::Eq(_, _, _) | Formula::Rec(_, _, _, _) => Shape::Atom,
    }
}
