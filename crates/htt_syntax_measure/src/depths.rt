//! Counts of binders, each 2^64 - 1 where it would be more.

ghost use Rattle.std.specs.Prelude.{◌≡◌, ◌+◌, ℕ, ◌<◌, ◌^◌};
ghost use Rattle.theory_saturation.specs.Saturation.{saturated};

/// Under so many binders more.
#[tactic(auto, using(crate::proofs::Binders::deeper_by))]
pub(crate) fn under(depth: u64, by: u64) -> u64
    ensures { (d : ℕ) → depth ≡ saturated d → result ≡ saturated (d + by) }
{
    depth.saturating_add(by)
}
