//! Parts of a tree that were made, or for which memory was wanting. A constructor takes its parts
//! as results, so that the function that walks a tree is one call for each form of node.

ghost use Rattle.std.specs.Prelude.{◌≡◌, IfOk};

use sqlite_items::Boxed;
use std::alloc::{AllocError, Global};

/// Moves a part into memory of its own. It fails where the part wasn't made, or for want of
/// memory.
pub fn boxed<A: Drop>(alloc: Global, part: Result<A, AllocError>) -> Result<Boxed<A>, AllocError>
    ensures same_value { IfOk result (λ b. part ≡ Ok b) }
{
    Boxed::new(alloc, part?)
}

/// The two parts, where both were made. It takes no memory.
pub fn both<A: Drop, B: Drop>(
    left: Result<A, AllocError>,
    right: Result<B, AllocError>,
) -> Result<(A, B), AllocError>
    ensures left_made { IfOk result (λ pair. left ≡ Ok pair.0) }
    ensures right_made { IfOk result (λ pair. right ≡ Ok pair.1) }
{
    Ok((left?, right?))
}
