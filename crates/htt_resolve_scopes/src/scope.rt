//! What is in scope at a place.

ghost use Rattle.std.specs.Prelude.{◌≡◌, IfOk, IfErr, option_map};
ghost use Rattle.theory_text_names.specs.Scopes.{at_top, with_local, under, under_name, under_mem, under_heaps, at_heap, heap_past};
ghost use Rattle.htt_resolve_names.specs.Views.{rows_tree};
ghost use Rattle.htt_resolve_scopes.specs.Views.{sort_of, scope_tree, IsMemory};

use crate::local::{Local, Sort};
use crate::names::name_bytes;
use htt_parser_trees::{Binder, Span};
use htt_resolve_names::{Declared, NameStop};
use std::alloc::Global;

/// A place of a text: the text, the declared names that are visible there, the binders around it, the outermost
/// first, and the current heap, if there is one, by its index.
#[derive(Drop)]
pub struct Scope<'a> {
    pub(crate) text: &'a [u8],
    pub(crate) names: &'a [Option<Declared>],
    pub(crate) locals: Vec<Local<'a>>,
    pub(crate) current: Option<u32>,
}

/// The current heap from under what was added. One whose index would pass 32 bits is taken as want of memory.
fn heap_past(sort: Sort, heap: Option<u32>) -> Result<Option<u32>, NameStop>
    ensures past { IfOk result (λ inner. inner ≡ heap_past (sort_of sort) heap) }
    ensures memory { IfErr result IsMemory }
{
    match (sort, heap) {
        (Sort::Hypothesis, _) => Ok(heap),
        (_, None) => Ok(None),
        (_, Some(heap)) => match heap.checked_add(1) {
            Some(inner) => Ok(Some(inner)),
            None => Err(NameStop::NoMemory),
        },
    }
}

impl<'a> Scope<'a> {
    /// A declaration behind those that declare these names. It takes no memory.
    #[tactic(auto, using(crate::proofs::Outward::innermost_empty))]
    pub fn at_top(alloc: Global, text: &'a [u8], names: &'a [Option<Declared>]) -> Scope<'a>
        ensures top { scope_tree result ≡ at_top text.now (rows_tree names.now) }
    {
        Scope {
            text,
            names,
            locals: Vec::new(alloc),
            current: None,
        }
    }

    /// The same place, in a scope of its own. It fails for want of memory alone.
    pub fn copy(&self, alloc: Global) -> Result<Scope<'a>, NameStop>
        ensures same { IfOk result (λ s. scope_tree s ≡ scope_tree self.now) }
        ensures memory { IfErr result IsMemory }
    {
        Ok(Scope {
            text: self.text,
            names: self.names,
            locals: Vec::from_slice(alloc, self.locals.as_slice())?,
            current: self.current,
        })
    }

    /// Goes under a binder of this name, or without one. It fails for want of memory alone.
    pub fn enter(&mut self, name: Option<&'a [u8]>, sort: Sort) -> Result<(), NameStop>
        ensures entered { IfOk result (λ _. scope_tree self.new ≡ with_local (option_map (λ n. n.now) name.entry) (sort_of sort) (scope_tree self.old)) }
        ensures memory { IfErr result IsMemory }
    {
        let inner = heap_past(sort, self.current)?;
        self.locals.push(Local { name, sort })?;
        self.current = inner;
        Ok(())
    }

    /// Goes under a binder of the text. It fails for want of memory alone.
    pub fn enter_binder(&mut self, binder: Binder, sort: Sort) -> Result<(), NameStop>
        ensures entered { IfOk result (λ _. scope_tree self.new ≡ under (scope_tree self.old) binder (sort_of sort)) }
        ensures memory { IfErr result IsMemory }
    {
        match binder {
            Binder::Name(span) => {
                let text: &'a [u8] = self.text;
                self.enter(Some(name_bytes(text, span)), sort)
            }
            Binder::Blank => self.enter(None, sort),
        }
    }

    /// The place under a binder of the text. It fails for want of memory alone.
    pub fn under(&self, alloc: Global, binder: Binder, sort: Sort) -> Result<Scope<'a>, NameStop>
        ensures under { IfOk result (λ s. scope_tree s ≡ under (scope_tree self.now) binder (sort_of sort)) }
        ensures memory { IfErr result IsMemory }
    {
        let mut inner = self.copy(alloc)?;
        inner.enter_binder(binder, sort)?;
        Ok(inner)
    }

    /// The place under a binder with a name. It fails for want of memory alone.
    pub fn under_name(&self, alloc: Global, span: Span, sort: Sort) -> Result<Scope<'a>, NameStop>
        ensures under { IfOk result (λ s. scope_tree s ≡ under_name (scope_tree self.now) span (sort_of sort)) }
        ensures memory { IfErr result IsMemory }
    {
        self.under(alloc, Binder::Name(span), sort)
    }

    /// The place where this is the current heap. It fails for want of memory alone.
    pub fn at_heap(&self, alloc: Global, heap: u32) -> Result<Scope<'a>, NameStop>
        ensures there { IfOk result (λ s. scope_tree s ≡ at_heap (scope_tree self.now) heap) }
        ensures memory { IfErr result IsMemory }
    {
        let mut inner = self.copy(alloc)?;
        inner.current = Some(heap);
        Ok(inner)
    }

    /// A precondition or the body of a predicate: the place under the heap `mem`, which is the current one. It fails
    /// for want of memory alone.
    pub fn under_mem(&self, alloc: Global) -> Result<Scope<'a>, NameStop>
        ensures under { IfOk result (λ s. scope_tree s ≡ under_mem (scope_tree self.now)) }
        ensures memory { IfErr result IsMemory }
    {
        let mut inner = self.copy(alloc)?;
        inner.enter(None, Sort::Mem)?;
        inner.current = Some(0);
        Ok(inner)
    }

    /// A claim, or a postcondition under its result: the place under the heaps `init` and `mem`, the second of which
    /// is the current one. It fails for want of memory alone.
    pub fn under_heaps(&self, alloc: Global) -> Result<Scope<'a>, NameStop>
        ensures under { IfOk result (λ s. scope_tree s ≡ under_heaps (scope_tree self.now)) }
        ensures memory { IfErr result IsMemory }
    {
        let mut inner = self.copy(alloc)?;
        inner.enter(None, Sort::Init)?;
        inner.enter(None, Sort::Mem)?;
        inner.current = Some(0);
        Ok(inner)
    }
}
