//! The signs between the operands of sums and products.

ghost use Rattle.std.specs.Prelude.{◌≡◌, option_map};
ghost use Rattle.theory_grammar.specs.Beginnings.{prod_sign_of, sum_sign_of};
ghost use Rattle.htt_parser_operands.specs.Signs.{plus_tree, times_tree};
ghost use Rattle.htt_parser_trees.specs.TreeLevels.{raw_prod_tree};
ghost use Rattle.htt_parser_trees.specs.TreeViews.{raw_appl_tree, raw_prod_operand_tree, raw_sum_operand_tree};
ghost use Rattle.htt_parser_trees.specs.Trees.{s_more, x_more};

use htt_lexer_tokens::{Kind, Sign};
use htt_parser_trees::{ProdOperand, RawAppl, RawProd, SumOperand};

/// A sign between two operands of a product.
#[derive(Clone, Copy, Debug, PartialEq, Eq)]
pub(crate) enum TimesSign {
    Star,
    Ampersand,
    ShiftLeft,
    ShiftRight,
}

/// A sign between two operands of a sum.
#[derive(Clone, Copy, Debug, PartialEq, Eq)]
pub(crate) enum PlusSign {
    Plus,
    Minus,
    Bar,
    Caret,
}

impl TimesSign {
    /// The sign of a token, if it is one of a product.
    pub fn of(kind: Kind) -> Option<TimesSign>
        ensures { option_map times_tree result ≡ prod_sign_of kind }
    {
        match kind {
            Kind::Sign(Sign::StarSign) => Some(TimesSign::Star),
            Kind::Sign(Sign::AmpersandSign) => Some(TimesSign::Ampersand),
            Kind::Sign(Sign::ShiftLeftSign) => Some(TimesSign::ShiftLeft),
            Kind::Sign(Sign::ShiftRightSign) => Some(TimesSign::ShiftRight),
            _ => None,
        }
    }

    /// An operand with this sign before it.
    #[tactic(auto, using(htt_parser_trees::specs::TreeLevels::raw_prod_operand_times, htt_parser_trees::specs::TreeLevels::raw_prod_operand_and, htt_parser_trees::specs::TreeLevels::raw_prod_operand_shift_left, htt_parser_trees::specs::TreeLevels::raw_prod_operand_shift_right), unfolding(htt_parser_words::proofs::Steps::reading))]
    pub fn joined(self, operand: RawAppl) -> ProdOperand
        ensures { raw_prod_operand_tree result ≡ x_more (times_tree self) (raw_appl_tree operand) }
    {
        match self {
            TimesSign::Star => ProdOperand::Times(operand),
            TimesSign::Ampersand => ProdOperand::And(operand),
            TimesSign::ShiftLeft => ProdOperand::ShiftLeft(operand),
            TimesSign::ShiftRight => ProdOperand::ShiftRight(operand),
        }
    }
}

impl PlusSign {
    /// The sign of a token, if it is one of a sum.
    pub fn of(kind: Kind) -> Option<PlusSign>
        ensures { option_map plus_tree result ≡ sum_sign_of kind }
    {
        match kind {
            Kind::Sign(Sign::PlusSign) => Some(PlusSign::Plus),
            Kind::Sign(Sign::MinusSign) => Some(PlusSign::Minus),
            Kind::Sign(Sign::BarSign) => Some(PlusSign::Bar),
            Kind::Sign(Sign::CaretSign) => Some(PlusSign::Caret),
            _ => None,
        }
    }

    /// An operand with this sign before it.
    #[tactic(auto, using(htt_parser_trees::specs::TreeLevels::raw_sum_operand_plus, htt_parser_trees::specs::TreeLevels::raw_sum_operand_minus, htt_parser_trees::specs::TreeLevels::raw_sum_operand_bar, htt_parser_trees::specs::TreeLevels::raw_sum_operand_caret), unfolding(htt_parser_words::proofs::Steps::reading))]
    pub fn joined(self, operand: RawProd) -> SumOperand
        ensures { raw_sum_operand_tree result ≡ s_more (plus_tree self) (raw_prod_tree operand) }
    {
        match self {
            PlusSign::Plus => SumOperand::Plus(operand),
            PlusSign::Minus => SumOperand::Minus(operand),
            PlusSign::Bar => SumOperand::Bar(operand),
            PlusSign::Caret => SumOperand::Caret(operand),
        }
    }
}
