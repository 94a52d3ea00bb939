//! Equality of monotypes.

ghost use Rattle.std.specs.Prelude.{◌≡◌};
ghost use Rattle.std.specs.Bool.{OnTrue, OnFalse};
ghost use Rattle.htt_syntax.specs.Views.{mono_tree};

use htt_syntax::Mono;

/// Whether two monotypes are the same. It takes no memory.
#[tactic(auto, using(htt_syntax::specs::Levels::mono_levels))]
pub fn same_mono(mono: &Mono, other: &Mono) -> bool
    ensures same { OnTrue result (mono_tree mono.now ≡ mono_tree other.now) }
    ensures differs { OnFalse result (mono_tree mono.now ≡ mono_tree other.now → ⊥) }
{
    match mono {
        Mono::Word => match other {
            Mono::Word => true,
            Mono::Bool | Mono::Loc | Mono::Unit | Mono::Pair(..) | Mono::Var(_) => false,
        },
        Mono::Bool => match other {
            Mono::Bool => true,
            Mono::Word | Mono::Loc | Mono::Unit | Mono::Pair(..) | Mono::Var(_) => false,
        },
        Mono::Loc => match other {
            Mono::Loc => true,
            Mono::Word | Mono::Bool | Mono::Unit | Mono::Pair(..) | Mono::Var(_) => false,
        },
        Mono::Unit => match other {
            Mono::Unit => true,
            Mono::Word | Mono::Bool | Mono::Loc | Mono::Pair(..) | Mono::Var(_) => false,
        },
        Mono::Pair(left, right) => match other {
            Mono::Pair(first, second) => {
                same_mono(left.get(), first.get()) && same_mono(right.get(), second.get())
            }
            Mono::Word | Mono::Bool | Mono::Loc | Mono::Unit | Mono::Var(_) => false,
        },
        Mono::Var(index) => match other {
            Mono::Var(place) => *index == *place,
            Mono::Word | Mono::Bool | Mono::Loc | Mono::Unit | Mono::Pair(..) => false,
        },
    }
}
