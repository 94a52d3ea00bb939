//! What the terms, computations and types of a level are read from.

use htt_parser_operands::Operands;

/// The readers of terms, computations and types at a level.
#[derive(Clone, Copy)]
pub struct Terms<'a, F> {
    pub operands: Operands<'a, F>,
}
