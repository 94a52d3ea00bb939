//! The sizes of monotypes.

ghost use Rattle.std.specs.Prelude.{◌≡◌, Ok};
ghost use Rattle.htt_parser_trees.specs.Trees.{RawMonoTree, RawFactorTree, m_name, m_pair, with_right};
ghost use Rattle.htt_parser_trees.specs.MonoViews.{raw_right_tree, raw_bracket_tree};
ghost use Rattle.htt_parser_trees.specs.MonoLevels.{raw_mono_tree};
ghost use Rattle.htt_syntax_measure.specs.Measures.{mono_measure};
ghost use Rattle.theory_text_names.specs.Uses.{mono_named};
ghost use Rattle.theory_text.specs.Monotypes.{factor_comes, mono_comes};
ghost use Rattle.htt_resolve_scopes.specs.Views.{scope_tree};
ghost use Rattle.htt_resolve_monos.specs.Sized.{sized, AnswersSize};

use htt_parser_trees::{MonoName, RawBracket, RawMono, RawRight, Span};
use htt_resolve_names::NameStop;
use htt_resolve_scopes::{MonoUse, Scope};
use htt_syntax_measure::{Size, size_of_mono};

/// The size of the monotype, or the stop that it meets first. It takes no memory.
#[cycle(measure)]
#[tactic(auto, using(crate::proofs::Measured::brackets), unfolding(htt_parser_trees::specs::MonoLevels::raw_mono_tree))]
pub fn measure_mono(scope: &Scope<'_>, mono: &RawMono) -> Result<Size, NameStop>
    ensures measured { AnswersSize mono_measure result (mono_comes (scope_tree scope.now) (raw_mono_tree mono.now)) }
{
    let name = measure_name(scope, mono.name)?;
    let mut size = measure_right(scope, name, &mono.right)?;
    for bracket in mono.brackets.as_slice() {
        size = measure_bracket(scope, size, bracket)?;
    }
    Ok(size)
}

/// The size of the first word of a monotype.
#[tactic(auto, using(crate::proofs::Measured::names))]
fn measure_name(scope: &Scope<'_>, name: MonoName) -> Result<Size, NameStop>
    ensures measured { AnswersSize mono_measure result (factor_comes (scope_tree scope.now) (m_name name)) }
{
    match name {
        MonoName::Word { at: _ } => Ok(Size::leaf()),
        MonoName::Bool { at: _ } => Ok(Size::leaf()),
        MonoName::Loc { at: _ } => Ok(Size::leaf()),
        MonoName::Unit { at: _ } => Ok(Size::leaf()),
        MonoName::Name(span) => measure_named(scope, span),
    }
}

/// The size of the monotype that the name stands for.
#[tactic(auto, using(crate::proofs::Measured::uses))]
fn measure_named(scope: &Scope<'_>, span: Span) -> Result<Size, NameStop>
    ensures measured { AnswersSize mono_measure result (mono_named (scope_tree scope.now) span) }
{
    match scope.mono_named(span)? {
        MonoUse::Variable(_) => Ok(Size::leaf()),
        MonoUse::Declared(mono) => Ok(size_of_mono(mono)),
    }
}

/// The size of a factor that measures so much, with what stands at its right.
#[cycle(measure)]
#[tactic(auto, using(crate::proofs::Measured::rights))]
fn measure_right(scope: &Scope<'_>, left: Size, right: &RawRight) -> Result<Size, NameStop>
    ensures measured { (f : RawFactorTree)
        → sized mono_measure (factor_comes (scope_tree scope.now) f) ≡ Ok left
        → AnswersSize mono_measure result (mono_comes (scope_tree scope.now) (with_right f (raw_right_tree right.now))) }
{
    match right {
        RawRight::Nothing => Ok(left),
        RawRight::Times(mono) => measure_pair(scope, left, mono.get()),
    }
}

/// The size of a monotype that measures so much, in brackets with what stands at their right.
#[cycle(measure)]
#[tactic(auto, using(crate::proofs::Measured::bracketed))]
fn measure_bracket(scope: &Scope<'_>, inner: Size, bracket: &RawBracket) -> Result<Size, NameStop>
    ensures measured { (m : RawMonoTree)
        → sized mono_measure (mono_comes (scope_tree scope.now) m) ≡ Ok inner
        → AnswersSize mono_measure result (mono_comes (scope_tree scope.now) (raw_bracket_tree bracket.now m)) }
{
    match bracket {
        RawBracket::Alone { at: _ } => Ok(inner),
        RawBracket::Times { at: _, mono } => measure_pair(scope, inner, mono.get()),
    }
}

/// The size of a pair whose left side measures so much.
#[cycle(measure)]
#[tactic(auto, using(crate::proofs::Measured::pairs))]
fn measure_pair(scope: &Scope<'_>, left: Size, right: &RawMono) -> Result<Size, NameStop>
    ensures measured { (f : RawFactorTree)
        → sized mono_measure (factor_comes (scope_tree scope.now) f) ≡ Ok left
        → AnswersSize mono_measure result (mono_comes (scope_tree scope.now) (m_pair f (raw_mono_tree right.now))) }
{
    let right = measure_mono(scope, right)?;
    Ok(Size::node_of_two(left, right))
}
