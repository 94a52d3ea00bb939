//! The sort of an argument, and why a call has no answer.

ghost use Rattle.std.specs.Prelude.{◌≡◌};
ghost use Rattle.logic_axioms_shapes.specs.declared.sort.AxiomStop.TheVariants.{NoMemory};

use htt_syntax::Mono;
use std::alloc::{AllocError, AllocFailed};
use thiserror::Error;

/// What an axiom takes as an argument.
#[derive(Drop)]
pub enum ArgSort {
    Heap,
    /// A term of this monotype.
    Term(Mono),
}

/// Why an axiom has no shape or no instance at what it is given.
#[derive(Clone, Copy, Debug, PartialEq, Eq, Error)]
pub enum AxiomStop {
    /// It takes another count of monotypes, or its side condition fails.
    #[error("the axiom isn't used at such monotypes or arguments")]
    BadInstance,
    /// The pair that it makes of its monotypes has more than 64 nodes.
    #[error("a monotype has more than 64 nodes")]
    MonoTooLarge,
    /// The instance has more than 1,000,000 nodes.
    #[error("the instance has more than 1,000,000 nodes")]
    TooLarge,
    #[error("out of memory")]
    NoMemory,
}

impl From<AllocError> for AxiomStop {
    ghost from_gives = { λ _ stop. stop ≡ NoMemory };

    fn from(_error: AllocError) -> AxiomStop {
        AxiomStop::NoMemory
    }
}

impl<T: Drop> From<AllocFailed<T>> for AxiomStop {
    ghost from_gives = { λ _ stop. stop ≡ NoMemory };

    fn from(_error: AllocFailed<T>) -> AxiomStop {
        AxiomStop::NoMemory
    }
}
