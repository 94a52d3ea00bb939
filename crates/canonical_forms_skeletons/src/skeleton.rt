//! Skeletons, and a skeleton of parts that were made.

ghost use Rattle.std.specs.Prelude.{◌≡◌, IfOk};
ghost use Rattle.canonical_forms_skeletons.specs.declared.skeleton.Skeleton.TheVariants as variant;

use htt_syntax_seq::both;
use sqlite_items::Boxed;
use std::alloc::AllocError;

/// The skeleton of a type.
#[derive(Drop)]
pub enum Skeleton {
    /// That of a monotype.
    O,
    /// That of a computation.
    C,
    /// That of a function: its argument's and its answer's.
    Arrow(Boxed<Skeleton>, Boxed<Skeleton>),
    /// That of a type under a monotype.
    All(Boxed<Skeleton>),
}

/// `Skeleton::Arrow` of its parts.
pub fn skeleton_arrow(
    argument: Result<Boxed<Skeleton>, AllocError>,
    answer: Result<Boxed<Skeleton>, AllocError>,
) -> Result<Skeleton, AllocError>
    ensures made { IfOk result (λ s. (x : Skeleton) × (y : Skeleton)
        × (argument ≡ Ok x) × (answer ≡ Ok y)
        × (s ≡ variant.Arrow x y)) }
{
    both(argument, answer).map(|(argument, answer)| Skeleton::Arrow(argument, answer))
}

/// `Skeleton::All` of its part.
pub fn skeleton_all(body: Result<Boxed<Skeleton>, AllocError>) -> Result<Skeleton, AllocError>
    ensures made { IfOk result (λ s. (x : Skeleton) × (body ≡ Ok x) × (s ≡ variant.All x)) }
{
    body.map(|body| Skeleton::All(body))
}
