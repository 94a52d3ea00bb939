//! Trees as flat rows. A row is a form and the places of its parts; the form says which kinds of parts it has
//! and under how many binders each stands, so that what goes over rows goes over slots, whatever the form.
//! Skeletons, monotypes and lists of terms have rows as terms, computations, types and formulas have.
#![tactic(auto)]

ghost use Rattle.shared_terms_rows.specs.Laws.{RowsAreOfTheirKind};

mod form;
mod operation;
mod row;
mod slots;

pub use form::{
    CompForm, FixForm, Form, FormulaForm, Kind, MonoForm, SkeletonForm, StepForm, TermForm, TyForm,
};
pub use operation::Operation;
pub use row::Row;
pub use slots::{Slot, Slots, kind_of, slots_of};

/// The tree of a form is of the form's kind.
pub fn rows_are_of_their_kind()
    ensures law { RowsAreOfTheirKind }
{}
