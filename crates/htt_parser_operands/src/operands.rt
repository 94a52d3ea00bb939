//! What the atoms, applications, products, sums and comparisons of a level are read from.

use htt_parser_levels::Level;

/// The readers of atoms, applications, products, sums and comparisons at a level.
#[derive(Clone, Copy)]
pub struct Operands<'a, F> {
    pub level: Level<'a, F>,
}

/// How many operands a chain may have after its first one.
pub(crate) const FURTHER: u32 = 63;
