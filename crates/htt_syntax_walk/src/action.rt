//! What a walk does at each variable.

ghost use Rattle.std.specs.Prelude.{◌≡◌, ◌+◌, IfOk, IfSome};
ghost use Rattle.htt_syntax.specs.Trees.{t_var, m_var};
ghost use Rattle.htt_syntax.specs.Views.{term_tree, mono_tree};
ghost use Rattle.htt_syntax_walk.specs.Walk.{Puts};

use htt_syntax::{Mono, Term};
use std::alloc::{AllocError, Global};

/// An action of a walk: what it puts for a variable, from the variable's index and the count of
/// binders that stand around it. An answer `Err` ends the walk: for want of memory, or where an
/// index would pass 32 bits.
pub trait Action {
    ghost puts: { Self → Puts };

    /// What stands for a term variable.
    fn at_term(&self, alloc: Global, index: u32, depth: u32) -> Result<Term, AllocError>
        ensures { IfOk result (λ t. term_tree t ≡ (puts self.now).on_term depth index) };

    /// What stands for a monotype variable.
    fn at_mono(&self, alloc: Global, index: u32, depth: u32) -> Result<Mono, AllocError>
        ensures { IfOk result (λ m. mono_tree m ≡ (puts self.now).on_mono depth index) };

    /// The heap that stands for a heap.
    fn at_heap(&self, index: u32, depth: u32) -> Result<u32, AllocError>
        ensures { IfOk result (λ h. h ≡ (puts self.now).on_heap depth index) };
}

/// The depth under `by` more binders; none where it would pass 32 bits.
pub fn deeper(depth: u32, by: usize) -> Option<u32>
    ensures sum { IfSome result (λ inner. inner ≡ depth + by) }
{
    match u32::try_from(by) {
        Ok(by) => depth.checked_add(by),
        Err(_) => None,
    }
}
