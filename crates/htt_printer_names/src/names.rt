//! Names by position, and what an index or a number is printed as. Each call appends to the bytes that it is given; it
//! fails for want of memory alone, and then some of these bytes may be there.

ghost use Rattle.std.specs.Prelude.{◌≡◌, ◌++◌, ◌+◌, ◌<◌, OnOk, decimal, slice_get, length};
ghost use Rattle.theory_text_names.specs.Scopes.{a_term};
ghost use Rattle.theory_printing.specs.Pieces.{bytes_of};
ghost use Rattle.theory_printing.specs.Names.{letters, name_at, hypothesis_name, past, entry, new_name, new_hypothesis, val_name, rec_name, name_or_blank};
ghost use Rattle.htt_resolve_scopes.specs.Views.{sort_of};
ghost use Rattle.htt_printer_names.specs.Views.{print_scope, entry_at};

use crate::entries::{inits, mems};
use crate::scope::NameScope;
use htt_resolve_scopes::Sort;
use htt_syntax_seq::Seq;
use itoa::Buffer;
use std::alloc::AllocError;

/// Appends the decimal of a number.
pub fn push_number(out: &mut Vec<u8>, n: u64) -> Result<(), AllocError>
    ensures printed { OnOk result (out.new.items ≡ out.old.items ++ decimal n) }
{
    let mut buffer = Buffer::new();
    out.extend_from_slice(buffer.format(n).as_bytes())
}

fn sort_letters(sort: Sort) -> &'static [u8]
    ensures { result.now ≡ letters (sort_of sort) }
{
    match sort {
        Sort::Mono => b"_a",
        Sort::Heap => b"_h",
        _ => b"_x",
    }
}

/// Appends the name of what stands at a position.
pub fn push_name_at(out: &mut Vec<u8>, sort: Sort, position: u64) -> Result<(), AllocError>
    ensures printed { OnOk result (out.new.items ≡ out.old.items ++ name_at (sort_of sort) position) }
{
    out.extend_from_slice(sort_letters(sort))?;
    push_number(out, position)
}

/// Appends the name of a hypothesis by its number.
pub fn push_hypothesis_name(out: &mut Vec<u8>, n: u64) -> Result<(), AllocError>
    ensures printed { OnOk result (out.new.items ≡ out.old.items ++ hypothesis_name n) }
{
    out.extend_from_slice(b"_u")?;
    push_number(out, n)
}

/// Appends the number of heaps that are passed over, if there are any.
fn push_past(out: &mut Vec<u8>, over: u64) -> Result<(), AllocError>
    ensures { OnOk result (out.new.items ≡ out.old.items ++ bytes_of (past over)) }
{
    if over == 0 {
        return Ok(());
    }
    out.extend_from_slice(b"^")?;
    push_number(out, over)
}

/// The declared name with this number, or `_` where there is none.
#[tactic(auto, using(crate::proofs::Inward::declared_is, crate::proofs::Inward::undeclared_is))]
fn declared_name<'a>(names: &'a [Seq<u8>], number: u32) -> &'a [u8]
    ensures { result.now ≡ bytes_of (name_or_blank (slice_get names.now number)) }
{
    match names.get(number as usize) {
        Some(name) => name.as_slice(),
        None => b"_",
    }
}

impl NameScope<'_> {
    /// Appends the name of what a binder of this sort adds.
    #[tactic(auto, using(crate::proofs::Inward::sorts_length, crate::proofs::Inward::name_is))]
    pub fn push_new_name(&self, out: &mut Vec<u8>, sort: Sort) -> Result<(), AllocError>
        ensures printed { OnOk result (out.new.items ≡ out.old.items ++ bytes_of (new_name (sort_of sort) (print_scope self.now))) }
    {
        push_name_at(out, sort, self.entries.len() as u64)
    }

    /// Appends the name of what a binder of a term adds that stands behind so many others. A position past 64 bits is
    /// taken as want of memory.
    #[tactic(auto, using(crate::proofs::Inward::sorts_length))]
    pub fn push_name_behind(&self, out: &mut Vec<u8>, others: usize) -> Result<(), AllocError>
        ensures printed { OnOk result (out.new.items ≡ out.old.items ++ name_at a_term (length (print_scope self.now).entries + others)) }
    {
        let position = self.entries.len().checked_add(others).ok_or(AllocError)?;
        push_name_at(out, Sort::Term, position as u64)
    }

    /// Appends the name of a further hypothesis.
    #[tactic(auto, using(crate::proofs::Inward::name_is))]
    pub fn push_new_hypothesis(&self, out: &mut Vec<u8>) -> Result<(), AllocError>
        ensures printed { OnOk result (out.new.items ≡ out.old.items ++ bytes_of (new_hypothesis (print_scope self.now))) }
    {
        push_hypothesis_name(out, self.hypotheses)
    }

    /// Appends what an index stands for: the name of the entry, or `init` or `mem` with the number of such heaps that
    /// it passes over; `_` where there is no entry.
    #[tactic(auto, using(crate::proofs::Inward::entry_outside, crate::proofs::Inward::entry_inside))]
    pub fn push_entry(&self, out: &mut Vec<u8>, index: u32) -> Result<(), AllocError>
        ensures printed { OnOk result (out.new.items ≡ out.old.items ++ bytes_of (entry (print_scope self.now) index)) }
    {
        let count = self.entries.len();
        let index = index as usize;
        if index >= count {
            return out.extend_from_slice(b"_");
        }
        let position = count - 1 - index;
        push_entry_at(out, self.entries.as_slice(), position)
    }

    /// Appends the name of the value with this number, or `_` where there is none.
    pub fn push_val(&self, out: &mut Vec<u8>, number: u32) -> Result<(), AllocError>
        ensures printed { OnOk result (out.new.items ≡ out.old.items ++ bytes_of (val_name (print_scope self.now) number)) }
    {
        out.extend_from_slice(declared_name(self.vals, number))
    }

    /// Appends the name of the recursive predicate with this number, or `_` where there is none.
    pub fn push_rec(&self, out: &mut Vec<u8>, number: u32) -> Result<(), AllocError>
        ensures printed { OnOk result (out.new.items ≡ out.old.items ++ bytes_of (rec_name (print_scope self.now) number)) }
    {
        out.extend_from_slice(declared_name(self.recs, number))
    }
}

/// Appends the name of the entry at a position.
fn push_entry_at(out: &mut Vec<u8>, entries: &[Sort], position: usize) -> Result<(), AllocError>
    requires there { position < length entries.now }
    ensures { OnOk result (out.new.items ≡ out.old.items ++ bytes_of (entry_at entries.now position)) }
{
    let inside = &entries[position + 1..];
    match entries[position] {
        Sort::Init => {
            out.extend_from_slice(b"init")?;
            push_past(out, inits(inside))
        }
        Sort::Mem => {
            out.extend_from_slice(b"mem")?;
            push_past(out, mems(inside))
        }
        sort => push_name_at(out, sort, position as u64),
    }
}
