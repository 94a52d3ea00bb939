//! A row that is put twice stands once, and a row stands behind its parts.

ghost use Rattle.std.specs.Prelude.{◌≡◌};
ghost use Rattle.shared_terms_rows.specs.declared.form.Form.TheVariants as forms;
ghost use Rattle.shared_terms_rows.specs.declared.form.TermForm.TheVariants as terms;

use crate::Table;
use shared_terms_rows::{Form, Row, TermForm};
use std::test::Fail;

fn variable_row(index: u32) -> Row
    ensures row { result ≡ record { form = forms.Term (terms.Var index); first = 0; second = 0; third = 0; fourth = 0 } }
{
    Row {
        form: Form::Term(TermForm::Var(index)),
        first: 0,
        second: 0,
        third: 0,
        fourth: 0,
    }
}

fn pair_row(first: usize, second: usize) -> Row
    ensures row { result ≡ record { form = forms.Term terms.Pair; first = first; second = second; third = 0; fourth = 0 } }
{
    Row {
        form: Form::Term(TermForm::Pair),
        first,
        second,
        third: 0,
        fourth: 0,
    }
}

#[test]
#[tactic(auto, using(crate::proofs::Standing::variable_behind, crate::proofs::Standing::variable_fits))]
fn puts_a_row_once(rt: HostRuntime) -> Result<(), Fail> {
    let mut table = Table::new(rt.alloc());
    assert_eq!(rt; table.push(variable_row(0))?, 0);
    assert_eq!(rt; table.push(variable_row(1))?, 1);
    assert_eq!(rt; table.push(variable_row(0))?, 0);
    assert_eq!(rt; table.count(), 2);
    Ok(())
}

#[test]
#[tactic(auto, using(crate::proofs::Standing::variable_behind, crate::proofs::Standing::variable_fits, crate::proofs::Standing::pair_behind, crate::proofs::Standing::pair_fits))]
fn puts_a_pair_behind_its_parts(rt: HostRuntime) -> Result<(), Fail> {
    let mut table = Table::new(rt.alloc());
    let part = table.push(variable_row(0))?;
    let place = table.push(pair_row(part, part))?;
    assert_eq!(rt; (part, place), (0, 1));
    assert!(rt; table.row(place) == pair_row(0, 0));
    assert_eq!(rt; table.count(), 2);
    Ok(())
}
