//! Names by table.

use crate::{Axiom, named};
use std::test::Fail;

#[test]
fn each_name_has_its_axiom(rt: HostRuntime) -> Result<(), Fail> {
    for (text, axiom) in [
        ("emp_some", Axiom::EmpSome),
        ("emp_one", Axiom::EmpOne),
        ("join_emp", Axiom::JoinEmp),
        ("join_comm", Axiom::JoinComm),
        ("join_assoc", Axiom::JoinAssoc),
        ("join_fun", Axiom::JoinFun),
        ("join_cancel", Axiom::JoinCancel),
        ("join_empty", Axiom::JoinEmpty),
        ("join_cross", Axiom::JoinCross),
        ("cell_block", Axiom::CellBlock),
        ("cell_one", Axiom::CellOne),
        ("cell_val", Axiom::CellVal),
        ("cell_make", Axiom::CellMake),
        ("block_part", Axiom::BlockPart),
        ("block_sep", Axiom::BlockSep),
        ("block_null", Axiom::BlockNull),
        ("block_emp", Axiom::BlockEmp),
        ("block_word", Axiom::BlockWord),
        ("block_place", Axiom::BlockPlace),
        ("block_width", Axiom::BlockWidth),
        ("add_comm", Axiom::AddComm),
        ("mul_comm", Axiom::MulComm),
        ("add_assoc", Axiom::AddAssoc),
        ("mul_assoc", Axiom::MulAssoc),
        ("add_zero", Axiom::AddZero),
        ("mul_one", Axiom::MulOne),
        ("mul_zero", Axiom::MulZero),
        ("mul_add", Axiom::MulAdd),
        ("sub_add", Axiom::SubAdd),
        ("add_sub", Axiom::AddSub),
        ("lt_irrefl", Axiom::LtIrrefl),
        ("lt_zero", Axiom::LtZero),
        ("lt_trans", Axiom::LtTrans),
        ("lt_total", Axiom::LtTotal),
        ("lt_step", Axiom::LtStep),
        ("lt_gap", Axiom::LtGap),
        ("lt_pred", Axiom::LtPred),
        ("eq_yes", Axiom::EqYes),
        ("eq_no", Axiom::EqNo),
        ("bool_or", Axiom::BoolOr),
        ("bool_ne", Axiom::BoolNe),
        ("pair_eta", Axiom::PairEta),
        ("unit_eta", Axiom::UnitEta),
        ("and_zero", Axiom::AndZero),
        ("or_zero", Axiom::OrZero),
        ("xor_self", Axiom::XorSelf),
        ("shl_one", Axiom::ShlOne),
    ] {
        assert_eq!(rt; named(text), Some(axiom));
    }
    Ok(())
}

#[test]
fn other_texts_name_no_axiom(rt: HostRuntime) -> Result<(), Fail> {
    for text in [
        "",
        "add",
        "add_comm ",
        "Add_comm",
        "add_comma",
        "nope",
        "emp_so",
        "cell",
    ] {
        assert_eq!(rt; named(text), None);
    }
    Ok(())
}
