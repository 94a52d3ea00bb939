//! The walk over monotypes, which stand alone.

ghost use Rattle.std.specs.Prelude.{◌≡◌, IfOk, option_map};
ghost use Rattle.htt_syntax.specs.Views.{mono_tree};
ghost use Rattle.htt_syntax_walk.specs.Walk.{walk_mono};

use crate::action::Action;
use htt_syntax::Mono;
use htt_syntax_seq::boxed;
use sqlite_items::Boxed;
use std::alloc::{AllocError, Global};

/// The monotype with what the action puts for its variables; `depth` binders stand around it.
#[cycle(mono)]
#[tactic(auto, using(htt_syntax::specs::Levels::mono_levels, crate::specs::WalkLevels::mono_walks))]
pub fn walk_mono<A: Action>(
    alloc: Global,
    mono: &Mono,
    action: &A,
    depth: u32,
) -> Result<Mono, AllocError>
    ensures walked { IfOk result (λ m. mono_tree m ≡ walk_mono (A.puts action.now) depth (mono_tree mono.now)) }
{
    match mono {
        Mono::Word => Ok(Mono::Word),
        Mono::Bool => Ok(Mono::Bool),
        Mono::Loc => Ok(Mono::Loc),
        Mono::Unit => Ok(Mono::Unit),
        Mono::Pair(left, right) => htt_syntax_build::mono_pair(
            mono_box(alloc, left, action, depth),
            mono_box(alloc, right, action, depth),
        ),
        Mono::Var(index) => action.at_mono(alloc, *index, depth),
    }
}

#[cycle(mono)]
fn mono_box<A: Action>(
    alloc: Global,
    mono: &Boxed<Mono>,
    action: &A,
    depth: u32,
) -> Result<Boxed<Mono>, AllocError>
    ensures walked { IfOk result (λ m. mono_tree m ≡ walk_mono (A.puts action.now) depth (mono_tree mono.now)) }
{
    boxed(alloc, walk_mono(alloc, mono.get(), action, depth))
}

/// A monotype that may be missing, walked where it is there.
pub fn walk_mono_option<A: Action>(
    alloc: Global,
    mono: &Option<Mono>,
    action: &A,
    depth: u32,
) -> Result<Option<Mono>, AllocError>
    ensures walked { IfOk result (λ m. option_map mono_tree m ≡ option_map (walk_mono (A.puts action.now) depth) (option_map mono_tree mono.now)) }
{
    match mono {
        None => Ok(None),
        Some(mono) => walk_mono(alloc, mono, action, depth).map(|mono| Some(mono)),
    }
}
