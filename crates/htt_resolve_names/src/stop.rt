//! Why a text is refused for its names, or for the size of its trees.

ghost use Rattle.std.specs.Prelude.{◌≡◌};
ghost use Rattle.htt_resolve_names.specs.declared.stop.NameStop.TheVariants.{NoMemory};

use std::alloc::{AllocError, AllocFailed};
use thiserror::Error;

/// Why a text isn't resolved. Places are counted in bytes, from 0.
#[derive(Debug, PartialEq, Eq, Drop, Error)]
pub enum NameStop {
    /// The name there stands for nothing.
    #[error("the name at {at} is unbound")]
    Unbound { at: u64 },
    /// The name there may not be declared, or is declared before.
    #[error("the name at {at} is declared twice")]
    Duplicate { at: u64 },
    /// What stands there isn't what the place needs.
    #[error("the phrase at {at} has another sort than its place needs")]
    WrongSort { at: u64 },
    /// A tree has more than 1,000,000 nodes.
    #[error("a tree has more than 1,000,000 nodes")]
    TooLarge,
    /// A tree is more than 1,000 nodes deep.
    #[error("a tree is deeper than 1,000")]
    TooDeep,
    #[error("out of memory")]
    NoMemory,
}

impl From<AllocError> for NameStop {
    ghost from_gives = { λ _ stop. stop ≡ NoMemory };

    fn from(_error: AllocError) -> NameStop {
        NameStop::NoMemory
    }
}

impl<T: Drop> From<AllocFailed<T>> for NameStop {
    ghost from_gives = { λ _ stop. stop ≡ NoMemory };

    fn from(_error: AllocFailed<T>) -> NameStop {
        NameStop::NoMemory
    }
}
