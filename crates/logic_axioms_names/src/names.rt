//! The names of the axioms, in one table.

ghost use Rattle.std.specs.Prelude.{◌≡◌, ◌↔◌, map, option_map, Some};
ghost use Rattle.theory_logic_axioms.specs.Names.{AxiomName, text_of};
ghost use Rattle.logic_axioms_names.specs.Views.{axiom_name};
ghost use Rattle.logic_axioms_names.specs.Tables.{lookup, spelled};

use crate::axiom::Axiom;

const AXIOMS: [(&str, Axiom); 47] = [
    ("emp_some", Axiom::EmpSome),
    ("emp_one", Axiom::EmpOne),
    ("join_emp", Axiom::JoinEmp),
    ("join_comm", Axiom::JoinComm),
    ("join_assoc", Axiom::JoinAssoc),
    ("join_fun", Axiom::JoinFun),
    ("join_cancel", Axiom::JoinCancel),
    ("join_empty", Axiom::JoinEmpty),
    ("join_cross", Axiom::JoinCross),
    ("cell_block", Axiom::CellBlock),
    ("cell_one", Axiom::CellOne),
    ("cell_val", Axiom::CellVal),
    ("cell_make", Axiom::CellMake),
    ("block_part", Axiom::BlockPart),
    ("block_sep", Axiom::BlockSep),
    ("block_null", Axiom::BlockNull),
    ("block_emp", Axiom::BlockEmp),
    ("block_word", Axiom::BlockWord),
    ("block_place", Axiom::BlockPlace),
    ("block_width", Axiom::BlockWidth),
    ("add_comm", Axiom::AddComm),
    ("mul_comm", Axiom::MulComm),
    ("add_assoc", Axiom::AddAssoc),
    ("mul_assoc", Axiom::MulAssoc),
    ("add_zero", Axiom::AddZero),
    ("mul_one", Axiom::MulOne),
    ("mul_zero", Axiom::MulZero),
    ("mul_add", Axiom::MulAdd),
    ("sub_add", Axiom::SubAdd),
    ("add_sub", Axiom::AddSub),
    ("lt_irrefl", Axiom::LtIrrefl),
    ("lt_zero", Axiom::LtZero),
    ("lt_trans", Axiom::LtTrans),
    ("lt_total", Axiom::LtTotal),
    ("lt_step", Axiom::LtStep),
    ("lt_gap", Axiom::LtGap),
    ("lt_pred", Axiom::LtPred),
    ("eq_yes", Axiom::EqYes),
    ("eq_no", Axiom::EqNo),
    ("bool_or", Axiom::BoolOr),
    ("bool_ne", Axiom::BoolNe),
    ("pair_eta", Axiom::PairEta),
    ("unit_eta", Axiom::UnitEta),
    ("and_zero", Axiom::AndZero),
    ("or_zero", Axiom::OrZero),
    ("xor_self", Axiom::XorSelf),
    ("shl_one", Axiom::ShlOne),
];

/// What a table has for a text, if anything.
fn row_of(table: &[(&str, Axiom)], text: &str) -> Option<Axiom>
    ensures { result ≡ lookup (map spelled table.now) text.now }
{
    for (name, axiom) in table {
        if text == *name {
            return Some(*axiom);
        }
    }
    None
}

/// The axiom that the text names, if one has this name: each axiom has one name, and no two have the same. It takes
/// no memory. The names are those of `docs/LOGIC.md`.
pub fn named(text: &str) -> Option<Axiom>
    ensures named { (name : AxiomName) → (option_map axiom_name result ≡ Some name) ↔ (text_of name ≡ text.now) }
{
    row_of(&AXIOMS, text)
}
