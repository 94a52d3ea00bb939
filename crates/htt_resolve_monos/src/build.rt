//! Monotypes.

ghost use Rattle.std.specs.Prelude.{◌≡◌, IfOk, option_map};
ghost use Rattle.htt_syntax.specs.Views.{mono_tree};
ghost use Rattle.htt_parser_trees.specs.Trees.{m_name};
ghost use Rattle.htt_parser_trees.specs.MonoViews.{raw_right_tree};
ghost use Rattle.htt_parser_trees.specs.MonoLevels.{raw_mono_tree};
ghost use Rattle.theory_text_names.specs.Uses.{mono_named};
ghost use Rattle.theory_text.specs.Monotypes.{factor_comes, mono_comes};
ghost use Rattle.htt_resolve_scopes.specs.Views.{scope_tree};
ghost use Rattle.htt_resolve_monos.specs.Sized.{Builds};
ghost use Rattle.htt_resolve_monos.specs.Pairs.{paired, BuildsRight, BuildsBehind};

use htt_parser_trees::{MonoName, RawBracket, RawMono, RawRight, Span};
use htt_resolve_scopes::{MonoUse, Scope};
use htt_syntax::Mono;
use htt_syntax_build::mono_pair;
use htt_syntax_seq::boxed;
use htt_syntax_walk::copy_mono;
use std::alloc::{AllocError, Global};

/// The monotype. It fails for want of memory, and where the monotype is stopped.
#[cycle(build)]
#[tactic(auto, using(crate::proofs::Built::brackets), unfolding(htt_parser_trees::specs::MonoLevels::raw_mono_tree))]
pub fn build_mono(alloc: Global, scope: &Scope<'_>, mono: &RawMono) -> Result<Mono, AllocError>
    ensures built { Builds mono_tree result (mono_comes (scope_tree scope.now) (raw_mono_tree mono.now)) }
{
    let name = build_name(alloc, scope, mono.name)?;
    let right = build_right(alloc, scope, &mono.right)?;
    let mut built = paired(alloc, name, right)?;
    for bracket in mono.brackets.as_slice() {
        let right = build_behind(alloc, scope, bracket)?;
        built = paired(alloc, built, right)?;
    }
    Ok(built)
}

/// The first word of a monotype.
#[tactic(auto, using(htt_syntax::specs::Levels::mono_levels, crate::proofs::Built::names))]
fn build_name(alloc: Global, scope: &Scope<'_>, name: MonoName) -> Result<Mono, AllocError>
    ensures built { Builds mono_tree result (factor_comes (scope_tree scope.now) (m_name name)) }
{
    match name {
        MonoName::Word { at: _ } => Ok(Mono::Word),
        MonoName::Bool { at: _ } => Ok(Mono::Bool),
        MonoName::Loc { at: _ } => Ok(Mono::Loc),
        MonoName::Unit { at: _ } => Ok(Mono::Unit),
        MonoName::Name(span) => build_named(alloc, scope, span),
    }
}

/// The monotype that the name stands for.
#[tactic(auto, using(htt_syntax::specs::Levels::mono_levels))]
fn build_named(alloc: Global, scope: &Scope<'_>, span: Span) -> Result<Mono, AllocError>
    ensures built { Builds mono_tree result (mono_named (scope_tree scope.now) span) }
{
    match scope.mono_named(span) {
        Ok(MonoUse::Variable(index)) => Ok(Mono::Var(index)),
        Ok(MonoUse::Declared(mono)) => copy_mono(alloc, mono),
        Err(_) => Err(AllocError),
    }
}

/// A monotype with what stands at its right, if something does. It fails for want of memory alone.
#[tactic(auto, using(htt_syntax::specs::Levels::mono_levels))]
fn paired(alloc: Global, left: Mono, right: Option<Mono>) -> Result<Mono, AllocError>
    ensures built { IfOk result (λ mono. mono_tree mono ≡ paired (mono_tree left) (option_map mono_tree right)) }
{
    match right {
        None => Ok(left),
        Some(right) => mono_pair(boxed(alloc, Ok(left)), boxed(alloc, Ok(right))),
    }
}

/// What stands at the right of a factor.
#[cycle(build)]
#[tactic(auto, using(crate::proofs::Built::rights))]
fn build_right(
    alloc: Global,
    scope: &Scope<'_>,
    right: &RawRight,
) -> Result<Option<Mono>, AllocError>
    ensures built { IfOk result (λ built. BuildsRight (scope_tree scope.now) (raw_right_tree right.now) (option_map mono_tree built)) }
{
    match right {
        RawRight::Nothing => Ok(None),
        RawRight::Times(mono) => build_mono(alloc, scope, mono.get()).map(|mono| Some(mono)),
    }
}

/// What stands behind a bracket.
#[cycle(build)]
#[tactic(auto, using(crate::proofs::Built::bracketed))]
fn build_behind(
    alloc: Global,
    scope: &Scope<'_>,
    bracket: &RawBracket,
) -> Result<Option<Mono>, AllocError>
    ensures built { IfOk result (λ built. BuildsBehind (scope_tree scope.now) bracket.now (option_map mono_tree built)) }
{
    match bracket {
        RawBracket::Alone { at: _ } => Ok(None),
        RawBracket::Times { at: _, mono } => build_mono(alloc, scope, mono.get()).map(|mono| Some(
            mono,
        )),
    }
}
