//! The indices that a form holds itself, renamed.

ghost use Rattle.std.specs.Prelude.{◌≡◌, IfOk};
ghost use Rattle.shared_terms_rows.specs.declared.form.Form.TheVariants as form;
ghost use Rattle.theory_rows_renaming.specs.Renaming.{rename_form};
ghost use Rattle.shared_terms_renaming.specs.Maps.{map_of};

use crate::renaming::Renaming;
use shared_terms_rows::{Form, FormulaForm, MonoForm, TermForm};
use std::alloc::AllocError;

impl Renaming {
    /// The form with its own indices renamed; an error where one would pass 32 bits.
    #[tactic(auto, unfolding(theory_rows_renaming::specs::Renaming::rename_form))]
    pub fn form(self, form: Form) -> Result<Form, AllocError>
        ensures form { IfOk result (λ f. f ≡ rename_form (map_of self) form) }
    {
        match form {
            Form::Mono(form) => self.mono_form(form),
            Form::Term(form) => self.term_form(form),
            Form::Formula(form) => self.formula_form(form),
            Form::Skeleton(_) | Form::Ty(_) | Form::Triple | Form::NoTerms | Form::MoreTerms => {
                Ok(form)
            }
            Form::Fix(_) | Form::Comp(_) | Form::Step(_) => Ok(form),
        }
    }

    #[tactic(auto, unfolding(theory_rows_renaming::specs::Renaming::rename_form))]
    fn mono_form(self, mono: MonoForm) -> Result<Form, AllocError>
        ensures form { IfOk result (λ f. f ≡ rename_form (map_of self) (form.Mono mono)) }
    {
        match mono {
            MonoForm::Var(index) => self
                .index(index)
                .map(|index| Form::Mono(MonoForm::Var(index))),
            MonoForm::Word | MonoForm::Bool | MonoForm::Loc | MonoForm::Unit | MonoForm::Pair => {
                Ok(Form::Mono(mono))
            }
        }
    }

    #[tactic(auto, unfolding(theory_rows_renaming::specs::Renaming::rename_form))]
    fn term_form(self, term: TermForm) -> Result<Form, AllocError>
        ensures form { IfOk result (λ f. f ≡ rename_form (map_of self) (form.Term term)) }
    {
        match term {
            TermForm::Var(index) => self
                .index(index)
                .map(|index| Form::Term(TermForm::Var(index))),
            TermForm::Val(_) | TermForm::Def(_) | TermForm::Made(_) => Ok(Form::Term(term)),
            TermForm::App | TermForm::Inst | TermForm::Lam | TermForm::LamT => Ok(Form::Term(term)),
            TermForm::Do | TermForm::Fix(_) | TermForm::Ann | TermForm::At(_) => {
                Ok(Form::Term(term))
            }
            TermForm::Word(_) | TermForm::Bool(_) | TermForm::Loc(_) | TermForm::Unit => {
                Ok(Form::Term(term))
            }
            TermForm::Pair | TermForm::Fst | TermForm::Snd => Ok(Form::Term(term)),
            TermForm::Un | TermForm::Bin(_) | TermForm::Eq | TermForm::Sel => Ok(Form::Term(term)),
        }
    }

    #[tactic(auto, unfolding(theory_rows_renaming::specs::Renaming::rename_form))]
    fn formula_form(self, formula: FormulaForm) -> Result<Form, AllocError>
        ensures form { IfOk result (λ f. f ≡ rename_form (map_of self) (form.Formula formula)) }
    {
        let renamed = match formula {
            FormulaForm::Emp(heap) => FormulaForm::Emp(self.index(heap)?),
            FormulaForm::Cell(heap) => FormulaForm::Cell(self.index(heap)?),
            FormulaForm::Block(heap) => FormulaForm::Block(self.index(heap)?),
            FormulaForm::Join(whole, left, right) => FormulaForm::Join(
                self.index(whole)?,
                self.index(left)?,
                self.index(right)?,
            ),
            FormulaForm::Same(left, right) => FormulaForm::Same(
                self.index(left)?,
                self.index(right)?,
            ),
            FormulaForm::Rec(number, heap) => FormulaForm::Rec(number, self.index(heap)?),
            FormulaForm::Tt | FormulaForm::Ff | FormulaForm::Eq | FormulaForm::At(_) => formula,
            FormulaForm::And | FormulaForm::Or | FormulaForm::Imp => formula,
            FormulaForm::AllT | FormulaForm::ExT | FormulaForm::AllH | FormulaForm::ExH => formula,
        };
        Ok(Form::Formula(renamed))
    }
}
