//! Operations on literals and parts of pairs, folded: since each row stands once, a place tells the tree.

ghost use Rattle.std.specs.Prelude.{◌≡◌, IfOk};
ghost use Rattle.shared_terms_rows.specs.Forms.{term_slots, none};
ghost use Rattle.shared_terms_rows.specs.Rows.{Extends};
ghost use Rattle.shared_terms_renaming.specs.Known.{held, Known};
ghost use Rattle.shared_terms_folding.specs.Folded.{IsTerm};

use crate::fold;
use shared_terms_renaming::Work;
use shared_terms_rows::{Form, Operation, Row, TermForm};
use shared_terms_table::Table;
use std::alloc::AllocError;
use std::test::Fail;

/// The place of a term without parts.
#[tactic(auto, using(crate::proofs::Standing::leaf_behind, crate::proofs::Stood::leaf_fits, crate::proofs::Standing::leaf_is_term))]
fn leaf_at(work: &mut Work, form: TermForm) -> Result<usize, AllocError>
    requires known { Known work.old }
    requires slots { term_slots form ≡ none }
    ensures known { Known work.new }
    ensures kept { Extends (held work.old) (held work.new) }
    ensures term { IfOk result (λ place. IsTerm (held work.new) place) }
{
    work.push(Row {
        form: Form::Term(form),
        first: 0,
        second: 0,
        third: 0,
        fourth: 0,
    })
}

/// The places of an operation on two terms without parts, folded, and of a third.
#[tactic(auto, using(crate::proofs::Standing::sum_behind, crate::proofs::Standing::sum_fits, crate::proofs::Standing::term_kept, shared_terms_table::proofs::Lists::extends_trans))]
fn folded(
    work: &mut Work,
    operation: Operation,
    left: TermForm,
    right: TermForm,
    other: TermForm,
) -> Result<(usize, usize), AllocError>
    requires known { Known work.old }
    requires left { term_slots left ≡ none }
    requires right { term_slots right ≡ none }
    requires other { term_slots other ≡ none }
    ensures known { Known work.new }
{
    let left = leaf_at(work, left)?;
    let right = leaf_at(work, right)?;
    let place = fold(
        work,
        Row {
            form: Form::Term(TermForm::Bin(operation)),
            first: left,
            second: right,
            third: 0,
            fourth: 0,
        },
    )?;
    Ok((place, leaf_at(work, other)?))
}

#[test]
#[tactic(auto, unfolding(shared_terms_rows::specs::Forms::term_slots))]
fn words_are_added(rt: HostRuntime) -> Result<(), Fail> {
    let mut work = Work::on(rt.alloc(), Table::new(rt.alloc()));
    let (sum, five) = folded(
        &mut work,
        Operation::Add,
        TermForm::Word(2),
        TermForm::Word(3),
        TermForm::Word(5),
    )?;
    assert_eq!(rt; sum, five);
    Ok(())
}

#[test]
#[tactic(auto, unfolding(shared_terms_rows::specs::Forms::term_slots))]
fn words_wrap_around(rt: HostRuntime) -> Result<(), Fail> {
    let mut work = Work::on(rt.alloc(), Table::new(rt.alloc()));
    let last = TermForm::Word(18_446_744_073_709_551_615);
    let (sum, zero) = folded(
        &mut work,
        Operation::Add,
        last,
        TermForm::Word(1),
        TermForm::Word(0),
    )?;
    assert_eq!(rt; sum, zero);
    let (difference, all) = folded(
        &mut work,
        Operation::Sub,
        TermForm::Word(0),
        TermForm::Word(1),
        last,
    )?;
    assert_eq!(rt; difference, all);
    Ok(())
}

#[test]
#[tactic(auto, unfolding(shared_terms_rows::specs::Forms::term_slots))]
fn words_are_compared_and_shifted(rt: HostRuntime) -> Result<(), Fail> {
    let mut work = Work::on(rt.alloc(), Table::new(rt.alloc()));
    let (less, truth) = folded(
        &mut work,
        Operation::Lt,
        TermForm::Word(2),
        TermForm::Word(3),
        TermForm::Bool(true),
    )?;
    assert_eq!(rt; less, truth);
    let (shifted, ten) = folded(
        &mut work,
        Operation::Shl,
        TermForm::Word(5),
        TermForm::Word(65),
        TermForm::Word(10),
    )?;
    assert_eq!(rt; shifted, ten);
    Ok(())
}

#[test]
#[tactic(auto, unfolding(shared_terms_rows::specs::Forms::term_slots))]
fn sums_with_a_variable_stay(rt: HostRuntime) -> Result<(), Fail> {
    let mut work = Work::on(rt.alloc(), Table::new(rt.alloc()));
    let (sum, word) = folded(
        &mut work,
        Operation::Add,
        TermForm::Var(0),
        TermForm::Word(3),
        TermForm::Word(3),
    )?;
    assert_eq!(rt; (sum, word), (2, 1));
    Ok(())
}

/// The places of a part of a pair of terms without parts, and of this part.
#[tactic(auto, using(crate::proofs::Standing::pair_behind, crate::proofs::Standing::pair_fits, crate::proofs::Standing::pair_is_term, crate::proofs::Standing::second_behind, crate::proofs::Standing::second_fits, crate::proofs::Standing::term_kept, shared_terms_table::proofs::Lists::extends_trans))]
fn second_of(work: &mut Work, left: TermForm, right: TermForm) -> Result<(usize, usize), AllocError>
    requires known { Known work.old }
    requires left { term_slots left ≡ none }
    requires right { term_slots right ≡ none }
    ensures known { Known work.new }
{
    let left = leaf_at(work, left)?;
    let right = leaf_at(work, right)?;
    let pair = work.push(Row {
        form: Form::Term(TermForm::Pair),
        first: left,
        second: right,
        third: 0,
        fourth: 0,
    })?;
    let place = fold(
        work,
        Row {
            form: Form::Term(TermForm::Snd),
            first: pair,
            second: 0,
            third: 0,
            fourth: 0,
        },
    )?;
    Ok((place, right))
}

#[test]
#[tactic(auto, unfolding(shared_terms_rows::specs::Forms::term_slots))]
fn parts_of_pairs_are_found(rt: HostRuntime) -> Result<(), Fail> {
    let mut work = Work::on(rt.alloc(), Table::new(rt.alloc()));
    let (place, right) = second_of(&mut work, TermForm::Var(0), TermForm::Var(1))?;
    assert_eq!(rt; place, right);
    Ok(())
}
