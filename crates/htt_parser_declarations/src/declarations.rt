//! What declarations are read from.

use htt_parser_proofs::Proofs;

/// The readers of declarations.
#[derive(Clone, Copy)]
pub struct Declarations<'a> {
    pub proofs: Proofs<'a>,
}

/// How many levels there may be below that of a declaration.
pub(crate) const LEVELS: u32 = 256;

/// How many declarations there may be.
pub(crate) const DECLARATIONS: u32 = 10_000;
