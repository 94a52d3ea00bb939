//! What is put for the free variables of a body, and the body with it.

ghost use Rattle.std.specs.Prelude.{◌≡◌, IfOk, option_map};
ghost use Rattle.htt_syntax.specs.Trees.{t_ann, y_mono};
ghost use Rattle.htt_syntax.specs.Views.{mono_tree, term_tree, formula_tree};
ghost use Rattle.theory_text_sugar.specs.Putting.{put_for, putting, put_into_mono, put_into_formula};
ghost use Rattle.theory_text_sugar.specs.Putting.{mono_for, term_for, heap_for};
ghost use Rattle.htt_resolve_sugar.specs.Views.{put_tree, puts_tree, with_argument};

use crate::places::place;
use htt_syntax::{Formula, Mono, Term};
use htt_syntax_build::{term_ann, ty_mono};
use htt_syntax_seq::boxed;
use htt_syntax_shift::{shift_mono, shift_term};
use htt_syntax_walk::{Action, walk_formula, walk_mono};
use std::alloc::{AllocError, Global};

/// What stands for a free variable of a body, seen from where the predicate is used.
#[derive(Drop)]
pub enum Put {
    Mono(Mono),
    Term(Term),
    Heap(u32),
}

/// The action that puts these for the free variables of a body. The last one stands for the innermost of them.
#[derive(Clone, Copy)]
struct Putting<'a> {
    puts: &'a [Put],
}

impl Putting<'_> {
    /// What stands for the variable of this index under `depth` binders.
    #[tactic(auto, using(crate::proofs::Found::puts))]
    fn put_for(&self, index: u32, depth: u32) -> Option<&Put>
        ensures found { option_map (λ p. put_tree p.now) result ≡ put_for (puts_tree self.now.puts.now) depth index }
    {
        match place(self.puts.len(), index, depth as u64) {
            Some(place) => Some(&self.puts[place]),
            None => None,
        }
    }
}

/// A term variable under `depth` binders, for which this is put; a variable of theirs stays.
#[tactic(auto, using(htt_syntax::specs::Levels::term_levels))]
fn term_for(alloc: Global, found: Option<&Put>, index: u32, depth: u32) -> Result<Term, AllocError>
    ensures put { IfOk result (λ t. term_tree t ≡ term_for depth index (option_map (λ p. put_tree p.now) found.entry)) }
{
    match found {
        Some(Put::Term(term)) => shift_term(alloc, term, 0, depth),
        Some(Put::Mono(_)) => Ok(Term::Var(index)),
        Some(Put::Heap(_)) => Ok(Term::Var(index)),
        None => Ok(Term::Var(index)),
    }
}

/// A monotype variable likewise.
#[tactic(auto, using(htt_syntax::specs::Levels::mono_levels))]
fn mono_for(alloc: Global, found: Option<&Put>, index: u32, depth: u32) -> Result<Mono, AllocError>
    ensures put { IfOk result (λ t. mono_tree t ≡ mono_for depth index (option_map (λ p. put_tree p.now) found.entry)) }
{
    match found {
        Some(Put::Mono(mono)) => shift_mono(alloc, mono, 0, depth),
        Some(Put::Term(_)) => Ok(Mono::Var(index)),
        Some(Put::Heap(_)) => Ok(Mono::Var(index)),
        None => Ok(Mono::Var(index)),
    }
}

/// A heap likewise.
#[tactic(auto, using(crate::proofs::Found::heap_past))]
fn heap_for(found: Option<&Put>, index: u32, depth: u32) -> Result<u32, AllocError>
    ensures put { IfOk result (λ h. h ≡ heap_for depth index (option_map (λ p. put_tree p.now) found.entry)) }
{
    match found {
        Some(Put::Heap(heap)) => match heap.checked_add(depth) {
            Some(past) => Ok(past),
            None => Err(AllocError),
        },
        Some(Put::Mono(_)) => Ok(index),
        Some(Put::Term(_)) => Ok(index),
        None => Ok(index),
    }
}

impl Action for Putting<'_> {
    ghost puts = { λ p. putting (puts_tree p.puts.now) };

    #[tactic(auto, using(crate::proofs::Found::term_found))]
    fn at_term(&self, alloc: Global, index: u32, depth: u32) -> Result<Term, AllocError> {
        term_for(alloc, self.put_for(index, depth), index, depth)
    }

    #[tactic(auto, using(crate::proofs::Found::mono_found))]
    fn at_mono(&self, alloc: Global, index: u32, depth: u32) -> Result<Mono, AllocError> {
        mono_for(alloc, self.put_for(index, depth), index, depth)
    }

    #[tactic(auto, using(crate::proofs::Found::heap_found))]
    fn at_heap(&self, index: u32, depth: u32) -> Result<u32, AllocError> {
        heap_for(self.put_for(index, depth), index, depth)
    }
}

/// The argument with the monotype of its parameter.
#[tactic(auto, using(htt_syntax::specs::Levels::term_levels, htt_syntax::specs::Levels::ty_levels))]
fn annotated(alloc: Global, puts: &[Put], param: &Mono, argument: Term) -> Result<Term, AllocError>
    ensures annotated { IfOk result (λ t. term_tree t
        ≡ t_ann (term_tree argument) (y_mono (put_into_mono (puts_tree puts.now) (mono_tree param.now)))) }
{
    term_ann(
        boxed(alloc, Ok(argument)),
        boxed(
            alloc,
            ty_mono(walk_mono(alloc, param, &Putting { puts }, 0)),
        ),
    )
}

/// Puts the argument, with the monotype of its parameter, behind what was put before. It fails for want of memory, or
/// where an index would pass 32 bits.
#[tactic(auto, using(crate::proofs::Found::put_more))]
pub fn put_argument(
    alloc: Global,
    puts: &mut Vec<Put>,
    param: &Mono,
    argument: Term,
) -> Result<(), AllocError>
    ensures put { IfOk result (λ _. puts_tree puts.new.items
        ≡ with_argument (puts_tree puts.old.items) (mono_tree param.now) (term_tree argument)) }
{
    let annotated = annotated(alloc, puts.as_slice(), param, argument)?;
    puts.push(Put::Term(annotated))?;
    Ok(())
}

/// The body with what is put for its free variables. It fails for want of memory, or where an index would pass 32 bits.
pub fn body_with(alloc: Global, body: &Formula, puts: &[Put]) -> Result<Formula, AllocError>
    ensures put { IfOk result (λ F. formula_tree F ≡ put_into_formula (puts_tree puts.now) (formula_tree body.now)) }
{
    walk_formula(alloc, body, &Putting { puts }, 0)
}
