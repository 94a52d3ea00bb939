//! The size of one row, from those before it.

ghost use Rattle.std.specs.Prelude.{◌≡◌, ◌≤◌, length};
ghost use Rattle.shared_terms_rows.specs.Rows.{behind, bound};
ghost use Rattle.shared_terms_rows.specs.declared.form.Form.TheVariants as form;
ghost use Rattle.theory_rows_counts.specs.Counts.{own_nodes};
ghost use Rattle.shared_terms_sizes.specs.Sized.{size_in_row, size_in_slot};

use shared_terms_rows::{
    CompForm, FixForm, Form, FormulaForm, Row, Slot, TermForm, TyForm, slots_of,
};

/// The size of the row: its own node and the sizes of its parts, at most 2^64 - 1.
#[tactic(auto, unfolding(crate::specs::Sized::size_in_row))]
pub fn row_size(sizes: &[u64], row: Row) -> u64
    requires behind { bound row ≤ length sizes.now }
    ensures size { result ≡ size_in_row sizes.now row }
{
    let slots = slots_of(row.form);
    own_size(row.form)
        .saturating_add(slot_size(sizes, slots.first, row.first))
        .saturating_add(slot_size(sizes, slots.second, row.second))
        .saturating_add(slot_size(sizes, slots.third, row.third))
        .saturating_add(slot_size(sizes, slots.fourth, row.fourth))
}

fn slot_size(sizes: &[u64], slot: Option<Slot>, place: usize) -> u64
    requires within { behind slot place ≤ length sizes.now }
    ensures size { result ≡ size_in_slot sizes.now slot place }
{
    match slot {
        Some(_) => sizes[place],
        None => 0,
    }
}

#[tactic(auto, unfolding(theory_rows_counts::specs::Counts::own_nodes))]
fn own_size(form: Form) -> u64
    ensures own { result ≡ own_nodes form }
{
    match form {
        Form::Mono(_) | Form::Triple | Form::Step(_) => 1,
        Form::Skeleton(_) | Form::NoTerms | Form::MoreTerms => 0,
        Form::Ty(ty) => ty_own(ty),
        Form::Term(term) => term_own(term),
        Form::Fix(fix) => match fix {
            FixForm::Param => 0,
            FixForm::Body => 1,
        },
        Form::Comp(comp) => match comp {
            CompForm::Step => 0,
            CompForm::Ret => 1,
        },
        Form::Formula(formula) => formula_own(formula),
    }
}

#[tactic(auto, unfolding(theory_rows_counts::specs::Counts::own_nodes))]
fn ty_own(ty: TyForm) -> u64
    ensures own { result ≡ own_nodes (form.Ty ty) }
{
    match ty {
        TyForm::At(_) => 0,
        TyForm::Mono | TyForm::Fun | TyForm::All | TyForm::Hoare => 1,
    }
}

#[tactic(auto, unfolding(theory_rows_counts::specs::Counts::own_nodes))]
fn term_own(term: TermForm) -> u64
    ensures own { result ≡ own_nodes (form.Term term) }
{
    match term {
        TermForm::At(_) => 0,
        TermForm::Var(_) | TermForm::Val(_) | TermForm::Def(_) | TermForm::Made(_) => 1,
        TermForm::App | TermForm::Inst | TermForm::Lam | TermForm::LamT | TermForm::Ann => 1,
        TermForm::Do | TermForm::Fix(_) | TermForm::Word(_) | TermForm::Bool(_) => 1,
        TermForm::Loc(_) | TermForm::Unit | TermForm::Pair | TermForm::Fst | TermForm::Snd => 1,
        TermForm::Un | TermForm::Bin(_) | TermForm::Eq | TermForm::Sel => 1,
    }
}

#[tactic(auto, unfolding(theory_rows_counts::specs::Counts::own_nodes))]
fn formula_own(formula: FormulaForm) -> u64
    ensures own { result ≡ own_nodes (form.Formula formula) }
{
    match formula {
        FormulaForm::At(_) => 0,
        FormulaForm::Tt | FormulaForm::Ff | FormulaForm::Emp(_) | FormulaForm::Cell(_) => 1,
        FormulaForm::And | FormulaForm::Or | FormulaForm::Imp | FormulaForm::Eq => 1,
        FormulaForm::AllT | FormulaForm::ExT | FormulaForm::AllH | FormulaForm::ExH => 1,
        FormulaForm::Block(_) | FormulaForm::Join(_, _, _) | FormulaForm::Same(_, _) => 1,
        FormulaForm::Rec(_, _) => 1,
    }
}
