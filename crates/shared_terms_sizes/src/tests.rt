//! Sums of what stands at a place with itself, over and over: few rows, and many nodes.

ghost use Rattle.std.specs.Prelude.{◌≡◌, ◌<◌, ◌≤◌, length, IfOk};
ghost use Rattle.shared_terms_rows.specs.declared.form.Form.TheVariants as forms;
ghost use Rattle.shared_terms_rows.specs.declared.form.Kind.TheVariants as kinds;
ghost use Rattle.shared_terms_rows.specs.declared.form.TermForm.TheVariants as terms;
ghost use Rattle.shared_terms_rows.specs.declared.operation.Operation.TheVariants as operations;
ghost use Rattle.shared_terms_rows.specs.Parts.{kind_of};
ghost use Rattle.shared_terms_rows.specs.Rows.{at};
ghost use Rattle.shared_terms_table.specs.View.{parts_of};

use crate::Sizes;
use shared_terms_rows::{Form, Operation, Row, TermForm};
use shared_terms_table::Table;
use std::alloc::AllocError;
use std::test::Fail;

fn variable_row(index: u32) -> Row
    ensures row { result ≡ record { form = forms.Term (terms.Var index); first = 0; second = 0; third = 0; fourth = 0 } }
{
    Row {
        form: Form::Term(TermForm::Var(index)),
        first: 0,
        second: 0,
        third: 0,
        fourth: 0,
    }
}

fn sum_row(part: usize) -> Row
    ensures row { result ≡ record { form = forms.Term (terms.Bin operations.Add); first = part; second = part; third = 0; fourth = 0 } }
{
    Row {
        form: Form::Term(TermForm::Bin(Operation::Add)),
        first: part,
        second: part,
        third: 0,
        fourth: 0,
    }
}

/// The place of the sum of the term with itself, so many times over.
#[tactic(auto, using(crate::proofs::Standing::sum_behind, crate::proofs::Standing::sum_fits, crate::proofs::Standing::sum_is_term))]
fn doubled(table: &mut Table, part: usize, times: u32) -> Result<usize, AllocError>
    requires within { part < length (parts_of table.old) }
    requires term { kind_of (at (parts_of table.old) part) ≡ kinds.Term }
    ensures longer { length (parts_of table.old) ≤ length (parts_of table.new) }
    ensures within { IfOk result (λ place. place < length (parts_of table.new)) }
    ensures term { IfOk result (λ place. kind_of (at (parts_of table.new) place) ≡ kinds.Term) }
{
    if times == 0 {
        return Ok(part);
    }
    let sum = table.push(sum_row(part))?;
    doubled(table, sum, times - 1)
}

#[test]
#[tactic(auto, using(shared_terms_table::proofs::Standing::variable_behind, shared_terms_table::proofs::Standing::variable_fits, crate::proofs::Standing::variable_is_term))]
fn counts_doubled_sums(rt: HostRuntime) -> Result<(), Fail> {
    let mut table = Table::new(rt.alloc());
    let mut sizes = Sizes::new(rt.alloc());
    let variable = table.push(variable_row(0))?;
    let thirty = doubled(&mut table, variable, 30)?;
    let more = doubled(&mut table, thirty, 34)?;
    sizes.follow(&table)?;
    assert_eq!(rt; table.count(), 65);
    assert_eq!(rt; sizes.of(&table, thirty), 2_147_483_647);
    assert_eq!(rt; sizes.of(&table, more), u64::MAX);
    Ok(())
}
