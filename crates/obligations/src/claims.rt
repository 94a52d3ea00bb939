//! Why a proof of the file claims no row.

ghost use Rattle.obligations.specs.Laws.{ClaimsComeToOne, ClaimsAreOnce};

use thiserror::Error;

/// Why a claim is refused.
#[derive(Clone, Copy, Debug, PartialEq, Eq, Error)]
pub enum ClaimStop {
    /// No row has this item and number.
    #[error("there is no such obligation")]
    Stray,
    /// The row isn't free.
    #[error("the obligation has a proof")]
    Twice,
}

/// A claim on rows of which no two have one item and number comes to one thing: to one row, or to one refusal.
/// So it is refused as stray exactly where no row has the item and the number, and as claimed twice exactly where
/// the row isn't free.
pub fn claims_come_to_one()
    ensures law { ClaimsComeToOne }
{}

/// A row is claimed once: behind a claim that had a row, each further one for the same item and number is refused as
/// the second, and changes nothing.
pub fn claims_are_once()
    ensures law { ClaimsAreOnce }
{}
