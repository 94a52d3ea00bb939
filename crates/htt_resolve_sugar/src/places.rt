//! Where what stands for a free variable is found.

ghost use Rattle.htt_resolve_sugar.specs.Views.{IsPlace};

/// The place, in a list of so many of which the last stands for the innermost free variable, of the variable of this
/// index under `depth` binders; none where it is a variable of theirs, or one past the list.
pub(crate) fn place(count: usize, index: u32, depth: u64) -> Option<usize>
    ensures place { IsPlace count index depth result }
{
    match (index as u64).checked_sub(depth) {
        Some(outside) => count.checked_sub(outside as usize + 1),
        None => None,
    }
}
