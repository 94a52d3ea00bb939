//! Why a phrase has no type.

ghost use Rattle.std.specs.Prelude.{◌≡◌};
ghost use Rattle.kinds_types_entries.specs.declared.stop.TypeStop.TheVariants.{NoMemory};

use htt_syntax::{Rule, Which};
use std::alloc::{AllocError, AllocFailed};
use thiserror::Error;

/// Why a phrase isn't formed, or gives or fits no type.
#[derive(Debug, PartialEq, Eq, Drop, Error)]
pub enum TypeStop {
    /// A premise of this rule fails, at this byte of the text, counted from 0.
    #[error("no rule gives the phrase at {at} a type")]
    Ill { at: u64, rule: Rule },
    /// This limit is passed.
    #[error("a limit is passed")]
    Limit(Which),
    #[error("out of memory")]
    NoMemory,
}

impl From<AllocError> for TypeStop {
    ghost from_gives = { λ _ stop. stop ≡ NoMemory };

    fn from(_error: AllocError) -> TypeStop {
        TypeStop::NoMemory
    }
}

impl<T: Drop> From<AllocFailed<T>> for TypeStop {
    ghost from_gives = { λ _ stop. stop ≡ NoMemory };

    fn from(_error: AllocFailed<T>) -> TypeStop {
        TypeStop::NoMemory
    }
}
