//! The binders around a place.

ghost use Rattle.std.specs.Prelude.{◌≡◌, ◌+◌, ◌<◌, ◌^◌, ◌-◌, ◌≤◌, ◌∷◌, length, take};
ghost use Rattle.theory_text_names.specs.Scopes.{one_more, one_more_hypothesis};
ghost use Rattle.theory_text_names.specs.Uses.{is_named, is_init, is_mem};
ghost use Rattle.htt_resolve_scopes.specs.Views.{sort_of, name_of, local_tree, innermost_first};

/// What a binder adds: an entry of a context, or a hypothesis of a proof. An entry that a proof adds is a term or a
/// heap. The heaps `init` and `mem` have words in place of names.
#[derive(Clone, Copy, Debug, PartialEq, Eq)]
pub enum Sort {
    Mono,
    Term,
    Heap,
    TermOrHeap,
    Init,
    Mem,
    Hypothesis,
}

/// A binder around a place: its name, if it has one, and what it adds.
#[derive(Clone, Copy, Debug)]
pub struct Local<'a> {
    pub name: Option<&'a [u8]>,
    pub sort: Sort,
}

impl Sort {
    /// The count of entries, where what has this sort was added to so many.
    pub fn one_more(self, entries: u64) -> u64
        requires fits { entries + 1 < 2 ^ 64 }
        ensures counted { result ≡ one_more (sort_of self) entries }
    {
        match self {
            Sort::Hypothesis => entries,
            _ => entries + 1,
        }
    }

    /// The count of hypotheses likewise.
    pub fn one_more_hypothesis(self, hypotheses: u64) -> u64
        requires fits { hypotheses + 1 < 2 ^ 64 }
        ensures counted { result ≡ one_more_hypothesis (sort_of self) hypotheses }
    {
        match self {
            Sort::Hypothesis => hypotheses + 1,
            _ => hypotheses,
        }
    }

    /// Whether it is the heap `init`.
    pub fn is_init(self) -> bool
        ensures init { result ≡ is_init (sort_of self) }
    {
        matches!(self, Sort::Init)
    }

    /// Whether it is the heap `mem`.
    pub fn is_mem(self) -> bool
        ensures mem { result ≡ is_mem (sort_of self) }
    {
        matches!(self, Sort::Mem)
    }
}

impl Local<'_> {
    /// Whether it has this name. What has no name has none.
    pub fn is_named(&self, name: &[u8]) -> bool
        ensures named { result ≡ is_named name.now (name_of self.now) }
    {
        match self.name {
            Some(other) => other == name,
            None => false,
        }
    }
}

/// The innermost one of the first `count` locals; the code keeps the outermost first.
#[tactic(auto, using(crate::proofs::Outward::innermost_of))]
pub(crate) fn innermost<'a>(locals: &[Local<'a>], count: usize) -> Local<'a>
    requires some { 0 < count }
    requires within { count ≤ length locals.now }
    ensures first { innermost_first (take count locals.now) ≡ local_tree result ∷ innermost_first (take (count - 1) locals.now) }
{
    locals[count - 1]
}
