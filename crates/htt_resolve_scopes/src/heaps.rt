//! Heaps at a place: a name, or `init` or `mem` with the number of such binders that it passes over.

ghost use Rattle.std.specs.Prelude.{◌≡◌, ℕ, Option, Some, IfSome, IfNone};
ghost use Rattle.theory_text_names.specs.Uses.{heap_outside, heap_or_outer, heap_there, passed_over, heap_comes, current_heap};
ghost use Rattle.htt_resolve_names.specs.Answers.{Answers};
ghost use Rattle.htt_resolve_scopes.specs.Views.{sort_of, innermost_first, scope_tree, is_of};

use crate::local::{Local, Sort, innermost};
use crate::named::index;
use crate::scope::Scope;
use htt_parser_trees::RawHeap;
use htt_resolve_names::NameStop;

/// The two heaps that have words in place of names.
#[derive(Clone, Copy)]
pub(crate) enum HeapWord {
    Init,
    Mem,
}

impl HeapWord {
    fn is_of(self, sort: Sort) -> bool
        ensures same { result ≡ is_of self (sort_of sort) }
    {
        match self {
            HeapWord::Init => sort.is_init(),
            HeapWord::Mem => sort.is_mem(),
        }
    }
}

/// How many others of the kind are still to be passed over behind a local, if it isn't the heap that is reached.
fn passed(is_kind: bool, over: u64) -> Option<u64>
    ensures here { IfNone result ((n : ℕ) (outer : ℕ → Option ℕ) → heap_or_outer is_kind over n outer ≡ Some n) }
    ensures past { IfSome result (λ left. (n : ℕ) (outer : ℕ → Option ℕ) → heap_or_outer is_kind over n outer ≡ outer left) }
{
    if is_kind {
        over.checked_sub(1)
    } else {
        Some(over)
    }
}

/// The heap of this word that is reached past so many others of it.
#[tactic(auto, using(crate::proofs::Outward::heap_here))]
fn heap_outside(word: HeapWord, over: u64, locals: &[Local]) -> Option<u64>
    ensures reached { result ≡ heap_outside (is_of word) over 0 (innermost_first locals.now) }
{
    let mut over_left = over;
    let mut inside: u64 = 0;
    let mut left = locals.len();
    'outward: while left > 0 {
        let local = innermost(locals, left);
        left -= 1;
        let Some(fewer) = passed(word.is_of(local.sort), over_left) else {
            return Some(inside);
        };
        over_left = fewer;
        inside = local.sort.one_more(inside);
    }
    None
}

impl Scope<'_> {
    fn heap_of_word(&self, word: HeapWord, at: u64, over: Option<u64>) -> Result<u32, NameStop>
        ensures there { Answers (λ n. n) result (heap_there at (heap_outside (is_of word) (passed_over over) 0 (innermost_first self.now.locals.items))) }
    {
        match heap_outside(word, over.unwrap_or(0), self.locals.as_slice()) {
            Some(heap) => index(heap),
            None => Err(NameStop::WrongSort { at }),
        }
    }

    /// The index of a heap that is written there: `Unbound` or `WrongSort` at the name, or `WrongSort` at the word
    /// `init` or `mem` that has too few such binders around it.
    pub fn heap(&self, heap: &RawHeap) -> Result<u32, NameStop>
        ensures comes { Answers (λ n. n) result (heap_comes (scope_tree self.now) heap.now) }
    {
        match heap {
            RawHeap::Name(span) => self.heap_named(*span),
            RawHeap::Init { at, over } => self.heap_of_word(HeapWord::Init, *at, *over),
            RawHeap::Mem { at, over } => self.heap_of_word(HeapWord::Mem, *at, *over),
        }
    }

    /// The index of the current heap, for a sugar that begins at this byte: `WrongSort` there where there is none.
    pub fn current_heap(&self, at: u64) -> Result<u32, NameStop>
        ensures current { Answers (λ n. n) result (current_heap (scope_tree self.now) at) }
    {
        match self.current {
            Some(heap) => Ok(heap),
            None => Err(NameStop::WrongSort { at }),
        }
    }
}
