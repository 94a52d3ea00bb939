//! The sizes of what is put for variables.

ghost use Rattle.std.specs.Prelude.{ℕ, ◌≡◌};
ghost use Rattle.htt_syntax_walk.specs.Walk.{Puts};
ghost use Rattle.theory_saturation.specs.Saturation.{saturated};
ghost use Rattle.htt_syntax_measure.specs.Measures.{mono_measure, term_measure};

use crate::size::Size;

/// The sizes of what a walk puts for variables; `measures` says for which walks they are right. Each answer is from
/// the variable's index and the count of binders that stand around it, which is 2^64 - 1 where there are more.
pub trait Sizes {
    ghost measures: { Self → Puts → Type 0 };

    /// The size of what stands for a term variable.
    fn at_term(&self, index: u32, depth: u64) -> Size
        ensures { (p : Puts) (d : ℕ) → measures self.now p → depth ≡ saturated d → result ≡ term_measure (p.on_term d index) };

    /// The size of what stands for a monotype variable.
    fn at_mono(&self, index: u32, depth: u64) -> Size
        ensures { (p : Puts) (d : ℕ) → measures self.now p → depth ≡ saturated d → result ≡ mono_measure (p.on_mono d index) };
}
