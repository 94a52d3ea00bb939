//! What a row is computed to, by the shapes of its parts: one function for each form that is folded.

ghost use Rattle.std.specs.Prelude.{◌≡◌, ◌≤◌, length, true};
ghost use Rattle.shared_terms_rows.specs.Parts.{as_term, op_of};
ghost use Rattle.shared_terms_rows.specs.Rows.{bound, fits, node};
ghost use Rattle.shared_terms_rows.specs.declared.form.Form.TheVariants as form;
ghost use Rattle.shared_terms_rows.specs.declared.form.TermForm.TheVariants as term;
ghost use Rattle.shared_terms_rows.specs.Forms.{term_slots, none};
ghost use Rattle.shared_terms_renaming.specs.Known.{held};
ghost use Rattle.theory_canonical.specs.Folding.{op_literal};
ghost use Rattle.shared_terms_folding.specs.Folded.{Computes, EqualBy, leaf};

use crate::reading::shape_at;
use crate::shape::{Computed, Shape};
use shared_terms_renaming::Work;
use shared_terms_rows::{Form, MonoForm, Operation, Row, TermForm};

/// What the row is computed to. Its parts stand in the table, and are of the kinds of its slots.
pub fn compute(work: &Work, row: Row) -> Computed
    requires behind { bound row ≤ length (held work.now) }
    requires fitting { fits (held work.now) row ≡ true }
    ensures told { Computes (held work.now) (as_term (node (held work.now) row)) result }
{
    match row.form {
        Form::Term(TermForm::Fst) => compute_fst(work, row),
        Form::Term(TermForm::Snd) => compute_snd(work, row),
        Form::Term(TermForm::Un) => compute_not(work, row),
        Form::Term(TermForm::Bin(operation)) => compute_bin(work, operation, row),
        Form::Term(TermForm::Eq) => compute_eq(work, row),
        Form::Term(TermForm::Sel) => compute_sel(work, row),
        _ => Computed::Itself,
    }
}

fn compute_fst(work: &Work, row: Row) -> Computed
    requires form { row.form ≡ form.Term term.Fst }
    requires behind { bound row ≤ length (held work.now) }
    ensures told { Computes (held work.now) (as_term (node (held work.now) row)) result }
{
    match shape_at(work, row.first) {
        Shape::Pair(left, _) => Computed::Place(left),
        _ => Computed::Itself,
    }
}

fn compute_snd(work: &Work, row: Row) -> Computed
    requires form { row.form ≡ form.Term term.Snd }
    requires behind { bound row ≤ length (held work.now) }
    ensures told { Computes (held work.now) (as_term (node (held work.now) row)) result }
{
    match shape_at(work, row.first) {
        Shape::Pair(_, right) => Computed::Place(right),
        _ => Computed::Itself,
    }
}

fn compute_not(work: &Work, row: Row) -> Computed
    requires form { row.form ≡ form.Term term.Un }
    requires behind { bound row ≤ length (held work.now) }
    ensures told { Computes (held work.now) (as_term (node (held work.now) row)) result }
{
    match shape_at(work, row.first) {
        Shape::Bool(truth) => Computed::Literal(TermForm::Bool(!truth)),
        _ => Computed::Itself,
    }
}

fn compute_bin(work: &Work, operation: Operation, row: Row) -> Computed
    requires form { row.form ≡ form.Term (term.Bin operation) }
    requires behind { bound row ≤ length (held work.now) }
    ensures told { Computes (held work.now) (as_term (node (held work.now) row)) result }
{
    match (shape_at(work, row.first), shape_at(work, row.second)) {
        (Shape::Word(x), Shape::Word(y)) => Computed::Literal(result_of(operation, x, y)),
        _ => Computed::Itself,
    }
}

fn compute_eq(work: &Work, row: Row) -> Computed
    requires form { row.form ≡ form.Term term.Eq }
    requires behind { bound row ≤ length (held work.now) }
    ensures told { Computes (held work.now) (as_term (node (held work.now) row)) result }
{
    let left = shape_at(work, row.second);
    let right = shape_at(work, row.third);
    match equal(work.row(row.first).form, left, right) {
        Some(truth) => Computed::Literal(TermForm::Bool(truth)),
        None => Computed::Itself,
    }
}

// Whether two literals of the monotype are equal; nothing where they aren't literals of it.
fn equal(mono: Form, left: Shape, right: Shape) -> Option<bool>
    ensures told { EqualBy mono left right result }
{
    match (mono, left, right) {
        (Form::Mono(MonoForm::Word), Shape::Word(x), Shape::Word(y)) => Some(x == y),
        (Form::Mono(MonoForm::Bool), Shape::Bool(x), Shape::Bool(y)) => Some(x == y),
        (Form::Mono(MonoForm::Loc), Shape::Loc(x), Shape::Loc(y)) => Some(x == y),
        _ => None,
    }
}

fn compute_sel(work: &Work, row: Row) -> Computed
    requires form { row.form ≡ form.Term term.Sel }
    requires behind { bound row ≤ length (held work.now) }
    requires fitting { fits (held work.now) row ≡ true }
    ensures told { Computes (held work.now) (as_term (node (held work.now) row)) result }
{
    match shape_at(work, row.second) {
        Shape::Bool(true) => Computed::Place(row.third),
        Shape::Bool(false) => Computed::Place(row.fourth),
        _ => Computed::Itself,
    }
}

// The literal that an operation gives for two words.
#[tactic(auto, unfolding(shared_terms_rows::specs::Parts::build_term, shared_terms_rows::specs::Forms::term_slots))]
fn result_of(operation: Operation, x: u64, y: u64) -> TermForm
    ensures literal { leaf result ≡ op_literal (op_of operation) x y }
    ensures slots { term_slots result ≡ none }
{
    match operation {
        Operation::Add => TermForm::Word(x.wrapping_add(y)),
        Operation::Sub => TermForm::Word(x.wrapping_sub(y)),
        Operation::Mul => TermForm::Word(x.wrapping_mul(y)),
        Operation::And => TermForm::Word(x & y),
        Operation::Or => TermForm::Word(x | y),
        Operation::Xor => TermForm::Word(x ^ y),
        Operation::Shl => TermForm::Word(x << (y % 64)),
        Operation::Shr => TermForm::Word(x >> (y % 64)),
        Operation::Lt => TermForm::Bool(x < y),
    }
}
