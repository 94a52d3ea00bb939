//! Where a phrase is printed.

ghost use Rattle.std.specs.Prelude.{◌≡◌, IfOk, OnOk, [], suc, ◌+◌};
ghost use Rattle.theory_printing.specs.Names.{with_entry, with_hypothesis, under_mem, under_heaps};
ghost use Rattle.htt_resolve_scopes.specs.Views.{sort_of};
ghost use Rattle.htt_printer_names.specs.Views.{print_scope};

use htt_resolve_scopes::Sort;
use htt_syntax_seq::Seq;
use std::alloc::{AllocError, Global};

/// Where a phrase is printed: what each entry around it is, the outermost first, how many hypotheses there are, and
/// the bytes of the names of the values and of the recursive predicates.
#[derive(Drop)]
pub struct NameScope<'a> {
    pub(crate) alloc: Global,
    pub(crate) entries: Vec<Sort>,
    pub(crate) hypotheses: u64,
    pub(crate) vals: &'a [Seq<u8>],
    pub(crate) recs: &'a [Seq<u8>],
}

impl<'a> NameScope<'a> {
    /// The scope without entries, with so many hypotheses. It takes no memory.
    #[tactic(auto, using(crate::proofs::Inward::no_sorts))]
    pub fn at_top(
        alloc: Global,
        hypotheses: u64,
        vals: &'a [Seq<u8>],
        recs: &'a [Seq<u8>],
    ) -> NameScope<'a>
        ensures top { print_scope result ≡ record { entries = []; hypotheses = hypotheses; vals = vals.now; recs = recs.now } }
    {
        NameScope {
            alloc,
            entries: Vec::new(alloc),
            hypotheses,
            vals,
            recs,
        }
    }

    /// The same scope, as one of its own. It fails for want of memory alone.
    pub fn copy(&self) -> Result<NameScope<'a>, AllocError>
        ensures same { IfOk result (λ s. print_scope s ≡ print_scope self.now) }
    {
        Ok(NameScope {
            alloc: self.alloc,
            entries: Vec::from_slice(self.alloc, self.entries.as_slice())?,
            hypotheses: self.hypotheses,
            vals: self.vals,
            recs: self.recs,
        })
    }

    /// Goes under a binder. It fails for want of memory alone.
    #[tactic(auto, using(crate::proofs::Inward::sorts_grow))]
    pub fn enter(&mut self, sort: Sort) -> Result<(), AllocError>
        ensures entered { OnOk result (print_scope self.new ≡ with_entry (sort_of sort) (print_scope self.old)) }
    {
        self.entries.push(sort)?;
        Ok(())
    }

    /// Goes under a further hypothesis. A number past 64 bits is taken as want of memory.
    pub fn assume(&mut self) -> Result<(), AllocError>
        ensures assumed { OnOk result (print_scope self.new ≡ with_hypothesis (print_scope self.old)) }
    {
        self.hypotheses = self.hypotheses.checked_add(1).ok_or(AllocError)?;
        Ok(())
    }

    /// The scope under a binder. It fails for want of memory alone.
    pub fn under(&self, sort: Sort) -> Result<NameScope<'a>, AllocError>
        ensures under { IfOk result (λ s. print_scope s ≡ with_entry (sort_of sort) (print_scope self.now)) }
    {
        let mut inner = self.copy()?;
        inner.enter(sort)?;
        Ok(inner)
    }

    /// The scope under a further hypothesis. It fails for want of memory alone.
    pub fn under_hypothesis(&self) -> Result<NameScope<'a>, AllocError>
        ensures under { IfOk result (λ s. print_scope s ≡ with_hypothesis (print_scope self.now)) }
    {
        let mut inner = self.copy()?;
        inner.assume()?;
        Ok(inner)
    }

    /// The scope of a precondition. It fails for want of memory alone.
    pub fn under_mem(&self) -> Result<NameScope<'a>, AllocError>
        ensures under { IfOk result (λ s. print_scope s ≡ under_mem (print_scope self.now)) }
    {
        self.under(Sort::Mem)
    }

    /// The scope of a claim, and of a postcondition under its result. It fails for want of memory alone.
    pub fn under_heaps(&self) -> Result<NameScope<'a>, AllocError>
        ensures under { IfOk result (λ s. print_scope s ≡ under_heaps (print_scope self.now)) }
    {
        let mut inner = self.under(Sort::Init)?;
        inner.enter(Sort::Mem)?;
        Ok(inner)
    }
}
