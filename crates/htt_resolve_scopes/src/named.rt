//! Names by what their places need. The byte of a refusal is the first one of the name.

ghost use Rattle.std.specs.Prelude.{◌≡◌, option_map};
ghost use Rattle.htt_syntax.specs.Views.{term_tree};
ghost use Rattle.theory_text_names.specs.Uses.{use_at, mono_named, term_named, heap_named, hypothesis_named};
ghost use Rattle.theory_text_names.specs.Uses.{pred_named, rec_named};
ghost use Rattle.htt_resolve_names.specs.Answers.{Answers};
ghost use Rattle.htt_resolve_scopes.specs.Views.{use_tree, mono_use_tree, pred_use_tree, scope_tree};

use crate::local::Sort;
use crate::names::name_bytes;
use crate::scope::Scope;
use crate::uses::{Use, declared_use, local_use};
use htt_parser_trees::Span;
use htt_resolve_names::{Meaning, NameStop};
use htt_syntax::{Formula, Mono, Term};

/// A monotype that has a name: a variable by its index, or what the name is declared as.
#[derive(Clone, Copy)]
pub enum MonoUse<'a> {
    Variable(u32),
    Declared(&'a Mono),
}

/// A declared predicate, as `Meaning::Pred` has it.
#[derive(Clone, Copy)]
pub struct PredUse<'a> {
    pub monos: u32,
    pub params: &'a [Mono],
    pub body: &'a Formula,
}

/// An index as trees have it. More than 32 bits are taken as want of memory.
pub(crate) fn index(n: u64) -> Result<u32, NameStop>
    ensures same { Answers (λ m. m) result (Ok n) }
{
    match u32::try_from(n) {
        Ok(n) => Ok(n),
        Err(_) => Err(NameStop::NoMemory),
    }
}

impl<'a> Scope<'a> {
    /// What the name stands for, if it stands for something.
    pub fn use_at(&self, span: Span) -> Option<Use<'a>>
        ensures used { option_map use_tree result ≡ use_at (scope_tree self.now) span }
    {
        let name = name_bytes(self.text, span);
        match local_use(self.locals.as_slice(), name) {
            Some(local) => Some(local),
            None => declared_use(self.names, name),
        }
    }

    /// The monotype that the name stands for.
    pub fn mono_named(&self, span: Span) -> Result<MonoUse<'a>, NameStop>
        ensures named { Answers mono_use_tree result (mono_named (scope_tree self.now) span) }
    {
        match self.use_at(span) {
            Some(Use::Variable(n, Sort::Mono)) => Ok(MonoUse::Variable(index(n)?)),
            Some(Use::Declared(Meaning::Mono(mono))) => Ok(MonoUse::Declared(mono)),
            Some(_) => Err(NameStop::WrongSort { at: span.from }),
            None => Err(NameStop::Unbound { at: span.from }),
        }
    }

    /// The term that the name stands for.
    #[tactic(auto, using(htt_syntax::specs::Levels::term_levels))]
    pub fn term_named(&self, span: Span) -> Result<Term, NameStop>
        ensures named { Answers term_tree result (term_named (scope_tree self.now) span) }
    {
        match self.use_at(span) {
            Some(Use::Variable(n, Sort::Term | Sort::TermOrHeap)) => Ok(Term::Var(index(n)?)),
            Some(Use::Declared(Meaning::Def(number))) => Ok(Term::Def(*number)),
            Some(Use::Declared(Meaning::Val(number))) => Ok(Term::Val(*number)),
            Some(_) => Err(NameStop::WrongSort { at: span.from }),
            None => Err(NameStop::Unbound { at: span.from }),
        }
    }

    /// The index of the heap that the name stands for.
    pub fn heap_named(&self, span: Span) -> Result<u32, NameStop>
        ensures named { Answers (λ n. n) result (heap_named (scope_tree self.now) span) }
    {
        match self.use_at(span) {
            Some(Use::Variable(n, Sort::Heap | Sort::TermOrHeap)) => index(n),
            Some(_) => Err(NameStop::WrongSort { at: span.from }),
            None => Err(NameStop::Unbound { at: span.from }),
        }
    }

    /// The place of the hypothesis that the name stands for.
    pub fn hypothesis_named(&self, span: Span) -> Result<u32, NameStop>
        ensures named { Answers (λ n. n) result (hypothesis_named (scope_tree self.now) span) }
    {
        match self.use_at(span) {
            Some(Use::Hypothesis(n)) => index(n),
            Some(_) => Err(NameStop::WrongSort { at: span.from }),
            None => Err(NameStop::Unbound { at: span.from }),
        }
    }

    /// The predicate that the name stands for.
    pub fn pred_named(&self, span: Span) -> Result<PredUse<'a>, NameStop>
        ensures named { Answers pred_use_tree result (pred_named (scope_tree self.now) span) }
    {
        match self.use_at(span) {
            Some(
                Use::Declared(
                    Meaning::Pred {
                        monos,
                        params,
                        body,
                    },
                ),
            ) => Ok(PredUse {
                monos: *monos,
                params: params.as_slice(),
                body,
            }),
            Some(_) => Err(NameStop::WrongSort { at: span.from }),
            None => Err(NameStop::Unbound { at: span.from }),
        }
    }

    /// The number of the recursive predicate that the name stands for, and the count of its parameters.
    pub fn rec_named(&self, span: Span) -> Result<(u32, u32), NameStop>
        ensures named { Answers (λ p. p) result (rec_named (scope_tree self.now) span) }
    {
        match self.use_at(span) {
            Some(Use::Declared(Meaning::Rec { number, params })) => Ok((*number, *params)),
            Some(_) => Err(NameStop::WrongSort { at: span.from }),
            None => Err(NameStop::Unbound { at: span.from }),
        }
    }
}
