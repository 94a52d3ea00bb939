//! Variables and functions, renamed: since each row stands once, a place tells the tree.

ghost use Rattle.std.specs.Prelude.{◌≡◌, ◌<◌, length, IfOk};
ghost use Rattle.shared_terms_rows.specs.declared.form.Form.TheVariants as forms;
ghost use Rattle.shared_terms_rows.specs.declared.form.TermForm.TheVariants as terms;
ghost use Rattle.shared_terms_rows.specs.Rows.{Extends};
ghost use Rattle.shared_terms_renaming.specs.Known.{held, Known};

use crate::{Renaming, Work};
use shared_terms_rows::{Form, Row, TermForm};
use shared_terms_table::Table;
use std::alloc::AllocError;
use std::test::Fail;

fn variable_row(index: u32) -> Row
    ensures row { result ≡ record { form = forms.Term (terms.Var index); first = 0; second = 0; third = 0; fourth = 0 } }
{
    Row {
        form: Form::Term(TermForm::Var(index)),
        first: 0,
        second: 0,
        third: 0,
        fourth: 0,
    }
}

fn function_row(body: usize) -> Row
    ensures row { result ≡ record { form = forms.Term terms.Lam; first = body; second = 0; third = 0; fourth = 0 } }
{
    Row {
        form: Form::Term(TermForm::Lam),
        first: body,
        second: 0,
        third: 0,
        fourth: 0,
    }
}

/// The place of a variable.
#[tactic(auto, using(shared_terms_table::proofs::Standing::variable_behind, shared_terms_table::proofs::Standing::variable_fits))]
fn variable_at(work: &mut Work, index: u32) -> Result<usize, AllocError>
    requires known { Known work.old }
    ensures known { Known work.new }
    ensures kept { Extends (held work.old) (held work.new) }
    ensures within { IfOk result (λ place. place < length (held work.new)) }
{
    work.push(variable_row(index))
}

/// The place of a function whose body is a variable.
#[tactic(auto, using(shared_terms_table::proofs::Standing::variable_behind, shared_terms_table::proofs::Standing::variable_fits, crate::proofs::Standing::function_behind, crate::proofs::Standing::function_fits, shared_terms_table::proofs::Lists::extends_trans))]
fn function_at(work: &mut Work, index: u32) -> Result<usize, AllocError>
    requires known { Known work.old }
    ensures known { Known work.new }
    ensures kept { Extends (held work.old) (held work.new) }
    ensures within { IfOk result (λ place. place < length (held work.new)) }
{
    let body = work.push(variable_row(index))?;
    work.push(function_row(body))
}

/// The places of a variable, renamed, and of another.
#[tactic(auto, using(shared_terms_table::proofs::Lists::extends_trans))]
fn variables_at(
    work: &mut Work,
    renaming: Renaming,
    index: u32,
    other: u32,
) -> Result<(usize, usize), AllocError>
    requires known { Known work.old }
    ensures known { Known work.new }
{
    let place = variable_at(work, index)?;
    let renamed = work.rename(renaming, place)?;
    let expected = variable_at(work, other)?;
    Ok((renamed, expected))
}

/// The places of a function, renamed, and of another.
#[tactic(auto, using(shared_terms_table::proofs::Lists::extends_trans))]
fn functions_at(
    work: &mut Work,
    renaming: Renaming,
    index: u32,
    other: u32,
) -> Result<(usize, usize), AllocError>
    requires known { Known work.old }
    ensures known { Known work.new }
{
    let place = function_at(work, index)?;
    let renamed = work.rename(renaming, place)?;
    let expected = function_at(work, other)?;
    Ok((renamed, expected))
}

#[test]
fn variables_go_past_an_entry(rt: HostRuntime) -> Result<(), Fail> {
    let mut work = Work::on(rt.alloc(), Table::new(rt.alloc()));
    let (above, three) = variables_at(&mut work, Renaming::Past(1), 2, 3)?;
    assert_eq!(rt; above, three);
    let (at, two) = variables_at(&mut work, Renaming::Past(1), 1, 2)?;
    assert_eq!(rt; at, two);
    let (below, zero) = variables_at(&mut work, Renaming::Past(1), 0, 0)?;
    assert_eq!(rt; below, zero);
    Ok(())
}

#[test]
fn variables_above_a_gap_fall(rt: HostRuntime) -> Result<(), Fail> {
    let mut work = Work::on(rt.alloc(), Table::new(rt.alloc()));
    let (above, one) = variables_at(&mut work, Renaming::Closing(1), 2, 1)?;
    assert_eq!(rt; above, one);
    let (below, zero) = variables_at(&mut work, Renaming::Closing(1), 0, 0)?;
    assert_eq!(rt; below, zero);
    Ok(())
}

#[test]
fn bound_variables_stay(rt: HostRuntime) -> Result<(), Fail> {
    let mut work = Work::on(rt.alloc(), Table::new(rt.alloc()));
    let (bound, same) = functions_at(&mut work, Renaming::Past(0), 0, 0)?;
    assert_eq!(rt; bound, same);
    let (free, past) = functions_at(&mut work, Renaming::Past(0), 1, 2)?;
    assert_eq!(rt; free, past);
    Ok(())
}
