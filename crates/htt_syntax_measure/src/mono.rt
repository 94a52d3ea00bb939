//! Monotypes, which stand alone.

ghost use Rattle.std.specs.Prelude.{ℕ, ◌≡◌, option_map};
ghost use Rattle.htt_syntax.specs.Views.{mono_tree};
ghost use Rattle.htt_syntax_walk.specs.Walk.{Puts, walk_mono};
ghost use Rattle.theory_saturation.specs.Saturation.{saturated};
ghost use Rattle.htt_syntax_measure.specs.Measures.{mono_measure, option_measure};

use crate::size::Size;
use crate::sizes::Sizes;
use htt_syntax::Mono;
use sqlite_items::Boxed;

/// The size of the monotype with what is put for its variables; `depth` binders stand around it.
#[cycle(mono)]
#[tactic(auto, using(htt_syntax::specs::Levels::mono_levels, htt_syntax_walk::specs::WalkLevels::mono_walks, crate::proofs::MeasureLevels::mono_measures))]
pub fn measure_mono<S: Sizes>(mono: &Mono, sizes: &S, depth: u64) -> Size
    ensures sized { (p : Puts) (d : ℕ) → S.measures sizes.now p → depth ≡ saturated d → result ≡ mono_measure (walk_mono p d (mono_tree mono.now)) }
{
    match mono {
        Mono::Word => Size::leaf(),
        Mono::Bool => Size::leaf(),
        Mono::Loc => Size::leaf(),
        Mono::Unit => Size::leaf(),
        Mono::Pair(left, right) => Size::node_of_two(
            mono_box(left, sizes, depth),
            mono_box(right, sizes, depth),
        ),
        Mono::Var(index) => sizes.at_mono(*index, depth),
    }
}

#[cycle(mono)]
fn mono_box<S: Sizes>(mono: &Boxed<Mono>, sizes: &S, depth: u64) -> Size
    ensures sized { (p : Puts) (d : ℕ) → S.measures sizes.now p → depth ≡ saturated d → result ≡ mono_measure (walk_mono p d (mono_tree mono.now)) }
{
    measure_mono(mono.get(), sizes, depth)
}

/// A monotype that may be missing: of nothing where it is.
#[tactic(auto, using(crate::proofs::MeasureLevels::option_measures))]
pub(crate) fn measure_mono_option<S: Sizes>(mono: &Option<Mono>, sizes: &S, depth: u64) -> Size
    ensures sized { (p : Puts) (d : ℕ) → S.measures sizes.now p → depth ≡ saturated d → result ≡ option_measure (option_map (walk_mono p d) (option_map mono_tree mono.now)) }
{
    match mono {
        None => Size::nothing(),
        Some(mono) => measure_mono(mono, sizes, depth),
    }
}
