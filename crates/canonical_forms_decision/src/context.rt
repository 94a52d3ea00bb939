//! What stands around a place: the skeletons of the values of the file, and what each variable may be used as.

ghost use Rattle.std.specs.Prelude.{◌≡◌, ◌∷◌, IfOk, Some, option_map, slice_get, map};
ghost use Rattle.theory_canonical.specs.Contexts.{standing_of};
ghost use Rattle.theory_canonical_decided.specs.Standings.{serves_as_mono, serves_as_heap, skeleton_of_entry};
ghost use Rattle.canonical_forms_skeletons.specs.Views.{skeleton_tree};
ghost use Rattle.canonical_forms_decision.specs.Views.{standing, context_tree, heads_tree, given_standings, given_heads};

use canonical_forms_skeletons::{Skeleton, copy_skeleton};
use std::alloc::{AllocError, Global};

/// What a variable may be used as.
#[derive(Clone, Copy)]
pub(crate) enum Entry<'a> {
    Mono,
    Heap,
    /// A term of a monotype.
    Value,
    /// A monotype, a heap or a term of a monotype.
    Open,
    Term(&'a Skeleton),
}

/// The skeletons of the values, and the entries, the outermost first.
#[derive(Drop)]
pub(crate) struct Context<'a> {
    pub vals: &'a [Skeleton],
    pub entries: Vec<Entry<'a>>,
}

/// The entry of which only the skeleton is told.
#[tactic(auto, using(canonical_forms_skeletons::specs::Levels::skeleton_levels))]
fn entry_of(skeleton: &Skeleton) -> Entry<'_>
    ensures standing { standing result ≡ standing_of (skeleton_tree skeleton.now) }
{
    match skeleton {
        Skeleton::O => Entry::Open,
        Skeleton::C => Entry::Term(skeleton),
        Skeleton::Arrow(_, _) => Entry::Term(skeleton),
        Skeleton::All(_) => Entry::Term(skeleton),
    }
}

impl Entry<'_> {
    fn is_mono(self) -> bool
        ensures mono { result ≡ serves_as_mono (Some (standing self.entry)) }
    {
        match self {
            Entry::Mono => true,
            Entry::Open => true,
            Entry::Heap => false,
            Entry::Value => false,
            Entry::Term(_) => false,
        }
    }

    fn is_heap(self) -> bool
        ensures heap { result ≡ serves_as_heap (Some (standing self.entry)) }
    {
        match self {
            Entry::Heap => true,
            Entry::Open => true,
            Entry::Mono => false,
            Entry::Value => false,
            Entry::Term(_) => false,
        }
    }

    #[tactic(auto, using(canonical_forms_skeletons::specs::Levels::skeleton_levels))]
    fn skeleton(self, alloc: Global) -> Result<Option<Skeleton>, AllocError>
        ensures told { IfOk result (λ s. option_map skeleton_tree s ≡ skeleton_of_entry (Some (standing self.entry))) }
    {
        match self {
            Entry::Open => Ok(Some(Skeleton::O)),
            Entry::Value => Ok(Some(Skeleton::O)),
            Entry::Term(skeleton) => {
                copy_skeleton(alloc, skeleton).map(|skeleton| Some(skeleton))
            }
            Entry::Mono => Ok(None),
            Entry::Heap => Ok(None),
        }
    }
}

impl<'a> Context<'a> {
    /// The context of which skeletons alone are told. It fails for want of memory alone.
    pub fn given(
        alloc: Global,
        vals: &'a [Skeleton],
        skeletons: &'a [Skeleton],
    ) -> Result<Context<'a>, AllocError>
        ensures standings { IfOk result (λ c. context_tree c ≡ given_standings skeletons.now) }
        ensures heads { IfOk result (λ c. heads_tree c ≡ given_heads vals.now) }
    {
        let mut entries = Vec::new(alloc);
        for skeleton in skeletons {
            entries.push(entry_of(skeleton))?;
        }
        Ok(Context { vals, entries })
    }

    /// The context under one more entry. It fails for want of memory alone.
    #[tactic(auto, using(crate::proofs::Entries::one_more))]
    pub fn under(&self, alloc: Global, entry: Entry<'a>) -> Result<Context<'a>, AllocError>
        ensures standings { IfOk result (λ c. context_tree c ≡ standing entry.entry ∷ context_tree self.now) }
        ensures heads { IfOk result (λ c. heads_tree c ≡ heads_tree self.now) }
    {
        let mut entries = Vec::from_slice(alloc, self.entries.as_slice())?;
        entries.push(entry)?;
        Ok(Context {
            vals: self.vals,
            entries,
        })
    }

    /// The same context. It fails for want of memory alone.
    pub fn copy(&self, alloc: Global) -> Result<Context<'a>, AllocError>
        ensures standings { IfOk result (λ c. context_tree c ≡ context_tree self.now) }
        ensures heads { IfOk result (λ c. heads_tree c ≡ heads_tree self.now) }
    {
        Ok(Context {
            vals: self.vals,
            entries: Vec::from_slice(alloc, self.entries.as_slice())?,
        })
    }

    /// The entry of the variable, if there is one.
    #[tactic(auto, using(crate::proofs::Entries::entry_there, crate::proofs::Entries::entry_past))]
    fn entry(&self, index: u32) -> Option<Entry<'a>>
        ensures entry { option_map standing result ≡ slice_get (context_tree self.now) index }
    {
        let count = self.entries.len();
        let index = index as usize;
        if index < count {
            Some(self.entries[count - 1 - index])
        } else {
            None
        }
    }

    /// Whether the variable may be used as a monotype.
    pub fn is_mono(&self, index: u32) -> bool
        ensures mono { result ≡ serves_as_mono (slice_get (context_tree self.now) index) }
    {
        match self.entry(index) {
            Some(entry) => entry.is_mono(),
            None => false,
        }
    }

    /// Whether the variable may be used as a heap.
    pub fn is_heap(&self, index: u32) -> bool
        ensures heap { result ≡ serves_as_heap (slice_get (context_tree self.now) index) }
    {
        match self.entry(index) {
            Some(entry) => entry.is_heap(),
            None => false,
        }
    }

    /// The skeleton with which the variable may be used as a term. It fails for want of memory alone.
    pub fn skeleton(&self, alloc: Global, index: u32) -> Result<Option<Skeleton>, AllocError>
        ensures told { IfOk result (λ s. option_map skeleton_tree s ≡ skeleton_of_entry (slice_get (context_tree self.now) index)) }
    {
        match self.entry(index) {
            Some(entry) => entry.skeleton(alloc),
            None => Ok(None),
        }
    }

    /// The skeleton of the value with this number, if there is one. It fails for want of memory alone.
    #[tactic(auto, using(std::proofs::lemmas::Grind::common_steps, crate::proofs::Entries::val_there, crate::proofs::Entries::val_past))]
    pub fn val(&self, alloc: Global, number: u32) -> Result<Option<Skeleton>, AllocError>
        ensures told { IfOk result (λ s. option_map skeleton_tree s ≡ slice_get (map skeleton_tree self.now.vals.now) number) }
    {
        let number = number as usize;
        if number < self.vals.len() {
            copy_skeleton(alloc, &self.vals[number]).map(|skeleton| Some(skeleton))
        } else {
            Ok(None)
        }
    }
}
