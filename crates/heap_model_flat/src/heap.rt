//! `Heap`: all blocks in one vector of words, beside a table from each location to the span of its
//! block. `put` appends its block, so the words that stood at the location before are dead, as are
//! those of a block that was removed; but a block whose words are the last is cut off. Where more
//! words are dead than live, and eight more for each block, `put` first squeezes the dead ones out:
//! it copies the live words to a vector of their own and moves the spans within the table. Each word
//! dies once, so all squeezing together copies fewer words than were written.

ghost use Rattle.std.specs.Prelude.{◌≡◌, ◌+◌, ◌<◌, ◌≤◌, ◌^◌, length, option_map, option_copied, unwrap_or, sum_by, IfOk, OnOk, OnErr, MatchOption};
ghost use Rattle.std.specs.Bool.{OnTrue, OnFalse};
ghost use Rattle.std.specs.Ordering.{nat_cmp};
ghost use Rattle.std.specs.BTreeMap.{values, IsOrdered};
ghost use Rattle.theory_values.specs.Heaps.{IsHeap, empty_heap, with_block, without_block};
ghost use Rattle.theory_meaning.specs.Choices.{IsGreatest};
ghost use Rattle.heap_model_flat.specs.Listing.{IsSize};
ghost use Rattle.heap_model_flat.specs.Places.{IsLeastAbove, NoneAbove, is_of_length};
ghost use Rattle.heap_model_flat.specs.Spans.{span_words, flat_blocks, with_span_words, live_words, moved_spans, AreLaidOut};

use crate::span::Span;
use std::alloc::{AllocError, Global};
use std::collections::BTreeMap;

/// A heap: a finite map from locations, which are words other than 0, to blocks, which are lists of
/// words. A block may be empty.
#[derive(Drop)]
pub struct Heap {
    alloc: Global,
    words: Vec<u64>,
    table: BTreeMap<u64, Span>,
    /// How many words are in no block.
    dead: usize,
    ghost is_heap: { IsHeap (flat_blocks words.items table.entries) },
    ghost laid_out: { AreLaidOut table.entries (length words.items) },
    ghost counted: { sum_by (λ s. s.len) (values table) + dead ≡ length words.items },
}

#[tactic(auto, using(crate::proofs::TableLemmas::updated_table), unfolding(crate::specs::Blocks::blocks_of))]
impl Heap {
    ghost use Rattle.heap_model_flat.specs.Blocks.{blocks_of};

    /// The heap without a block. It takes no memory.
    pub fn new(alloc: Global) -> Heap
        ensures empty { blocks_of result ≡ empty_heap }
    {
        Heap {
            alloc,
            words: Vec::new(alloc),
            table: BTreeMap::new(alloc),
            dead: 0,
        }
    }

    /// The block at the location, if there is one.
    pub fn get(&self, at: u64) -> Option<&[u64]>
        ensures block { option_copied result ≡ blocks_of self.now at }
    {
        match self.table.get(&at) {
            Some(span) => Some(self.span_words(span)),
            None => None,
        }
    }

    fn span_words(&self, span: &Span) -> &[u64]
        requires { span.now.start + span.now.len ≤ length self.now.words.items }
        ensures { result.now ≡ span_words self.now.words.items span.now }
    {
        &self.words[span.start..span.start + span.len]
    }

    /// Appends the block and puts it at the location, without a look at what is dead. Where memory
    /// is wanting nothing has changed.
    fn append(&mut self, at: u64, block: &[u64]) -> Result<(), AllocError>
        requires { 0 < at }
        ensures ok { OnOk result (blocks_of self.new ≡ with_block (blocks_of self.old) at block.now) }
        ensures err { OnErr result (blocks_of self.new ≡ blocks_of self.old) }
    {
        let end = self.words.len();
        self.words.extend_from_slice(block)?;
        match self.table.insert(at, Span::new(end, block.len())) {
            Ok(old) => self.dead += len_of(old),
            Err(_) => {
                self.words.truncate(end);
                return Err(AllocError);
            }
        }
        Ok(())
    }

    /// Puts the block at the location, which isn't 0, in the place of one that stands there. Where
    /// memory is wanting nothing has changed.
    pub fn put(&mut self, at: u64, block: Vec<u64>) -> Result<(), AllocError>
        requires { 0 < at }
        ensures ok { OnOk result (blocks_of self.new ≡ with_block (blocks_of self.old) at block.items) }
        ensures err { OnErr result (blocks_of self.new ≡ blocks_of self.old) }
    {
        self.put_words(at, &block)
    }

    /// `put` with a copy of the words.
    pub fn put_words(&mut self, at: u64, words: &[u64]) -> Result<(), AllocError>
        requires { 0 < at }
        ensures ok { OnOk result (blocks_of self.new ≡ with_block (blocks_of self.old) at words.now) }
        ensures err { OnErr result (blocks_of self.new ≡ blocks_of self.old) }
    {
        if self.pays_for_squeezing() {
            self.squeeze()?;
        }
        self.append(at, words)
    }

    /// Whether so many words are dead that they pay for copying the live ones and for moving the
    /// span of each block, which counts as eight words.
    fn pays_for_squeezing(&self) -> bool {
        let live = self.words.len() - self.dead;
        self.dead.saturating_sub(live) / 8 > self.table.len()
    }

    /// Leaves the dead words out, so that the live ones stand in the order of the table. Where memory
    /// is wanting nothing has changed.
    fn squeeze(&mut self) -> Result<(), AllocError>
        ensures same { blocks_of self.new ≡ blocks_of self.old }
    {
        let words = self.live_words()?;
        move_spans(&mut self.table);
        self.words = words;
        self.dead = 0;
        Ok(())
    }

    /// The words of all blocks, in the order of the table.
    fn live_words(&self) -> Result<Vec<u64>, AllocError>
        ensures { IfOk result (λ words. words.items ≡ live_words self.now.words.items self.now.table.entries) }
    {
        let mut live = Vec::with_capacity(self.alloc, self.words.len() - self.dead)?;
        for (_, span) in &self.table {
            live.extend_from_slice(self.span_words(span))?;
        }
        Ok(live)
    }

    /// Writes the words over a block of the same length at the location, and says whether one stands
    /// there; where none does, nothing changes. It takes no memory.
    pub fn write(&mut self, at: u64, words: &[u64]) -> bool
        ensures stands { result ≡ is_of_length (blocks_of self.old at) (length words.now) }
        ensures written { OnTrue result (blocks_of self.new ≡ with_block (blocks_of self.old) at words.now) }
        ensures unchanged { OnFalse result (blocks_of self.new ≡ blocks_of self.old) }
    {
        let Some(span) = self.table.get(&at).copied() else {
            return false;
        };
        if span.len != words.len() {
            return false;
        }
        overwrite(&mut self.words, span, words);
        true
    }

    /// Removes the block at the location and gives it, if there is one. Where memory is wanting
    /// nothing has changed.
    pub fn take(&mut self, at: u64) -> Result<Option<Vec<u64>>, AllocError>
        ensures block { IfOk result (λ taken. option_map (λ v. v.items) taken ≡ blocks_of self.old at) }
        ensures ok { OnOk result (blocks_of self.new ≡ without_block (blocks_of self.old) at) }
        ensures err { OnErr result (blocks_of self.new ≡ blocks_of self.old) }
    {
        let taken = match self.get(at) {
            Some(words) => Some(words.to_vec(self.alloc)?),
            None => None,
        };
        self.remove(at);
        Ok(taken)
    }

    /// Removes the block at the location and gives its length, if there is one. It takes no memory.
    pub fn remove(&mut self, at: u64) -> Option<u64>
        ensures length { result ≡ option_map length (blocks_of self.old at) }
        ensures removed { blocks_of self.new ≡ without_block (blocks_of self.old) at }
    {
        let span = self.table.remove(&at)?;
        if span.start + span.len == self.words.len() {
            self.words.truncate(span.start);
        } else {
            self.dead += span.len;
        }
        Some(span.len as u64)
    }

    /// The least location of the heap that is greater than this one, if there is one. It takes no
    /// memory.
    pub fn above(&self, at: u64) -> Option<u64>
        ensures next { MatchOption result (NoneAbove (blocks_of self.now) at) (λ m. IsLeastAbove (blocks_of self.now) at m) }
    {
        let next = at.checked_add(1)?;
        match self.table.range(next..).next() {
            Some((location, _)) => Some(*location),
            None => None,
        }
    }

    /// The greatest location of the heap, or 0 where it has no block. It takes no memory.
    pub fn greatest(&self) -> u64
        ensures greatest { IsGreatest (blocks_of self.now) result }
    {
        match self.table.last_key_value() {
            Some((location, _)) => *location,
            None => 0,
        }
    }

    /// Over all blocks, the words plus 1. It takes no memory.
    pub fn size(&self) -> u64
        ensures size { IsSize (blocks_of self.now) result }
    {
        (self.words.len() - self.dead + self.table.len()) as u64
    }
}

/// Writes the words over those of a span as long as they are.
fn overwrite(all: &mut [u64], span: Span, words: &[u64])
    requires within { span.start + span.len ≤ length all.old }
    requires same_length { length words.now ≡ span.len }
    ensures { all.new ≡ with_span_words all.old span words.now }
{
    all[span.start..span.start + span.len].copy_from_slice(words);
}

/// Moves the spans so that each begins where the one before it ends, the first at 0. No place is
/// above the sum of all lengths, so none saturates.
fn move_spans(table: &mut BTreeMap<u64, Span>)
    requires { sum_by (λ s. s.len) (values table.old) < 2 ^ 64 }
    ensures moved { table.new.entries ≡ moved_spans 0 table.old.entries }
    ensures was_ordered { IsOrdered nat_cmp table.old }
{
    let mut start = 0usize;
    table.retain(move |_, span| {
        *span = Span::new(start, span.len);
        start = start.saturating_add(span.len);
        true
    });
}

fn len_of(span: Option<Span>) -> usize
    ensures { result ≡ unwrap_or (option_map (λ s. s.len) span) 0 }
{
    match span {
        Some(span) => span.len,
        None => 0,
    }
}

#[cfg(test)]
mod tests {
    use super::*;
    use std::test::Fail;

    fn two_blocks(alloc: Global) -> Result<Heap, AllocError> {
        let mut heap = Heap::new(alloc);
        heap.put(9, vec![in alloc; 1, 2]?)?;
        heap.put(5, vec![in alloc; 42]?)?;
        Ok(heap)
    }

    #[test]
    fn a_block_that_was_taken_is_gone(rt: HostRuntime) -> Result<(), Fail> {
        let mut heap = two_blocks(rt.alloc())?;
        let taken = heap.take(5)?.ok_or("a block stands there")?;
        assert_eq!(rt; taken.as_slice(), [42].as_slice());
        assert_eq!(rt; heap.get(5), None);
        assert_eq!(rt; heap.get(9), Some([1, 2].as_slice()));
        assert_eq!(rt; heap.remove(5), None);
        assert_eq!(rt; heap.remove(9), Some(2));
        Ok(())
    }

    #[test]
    fn locations_are_met_in_order(rt: HostRuntime) -> Result<(), Fail> {
        let heap = two_blocks(rt.alloc())?;
        for (at, next) in [
            (0, Some(5)),
            (5, Some(9)),
            (8, Some(9)),
            (9, None),
            (u64::MAX, None),
        ] {
            assert_eq!(rt; heap.above(at), next);
        }
        assert_eq!(rt; heap.greatest(), 9);
        assert_eq!(rt; heap.size(), 5);
        assert_eq!(rt; Heap::new(rt.alloc()).greatest(), 0);
        Ok(())
    }

    #[test]
    fn a_block_is_written_at_its_length_alone(rt: HostRuntime) -> Result<(), Fail> {
        let mut heap = two_blocks(rt.alloc())?;
        for (at, words, stands) in [
            (9, [7].as_slice(), false),
            (8, [].as_slice(), false),
            (9, [7, 8].as_slice(), true),
        ] {
            assert_eq!(rt; heap.write(at, words), stands);
        }
        let block = heap.get(9).ok_or("a block stands there")?;
        assert_eq!(rt; block, [7, 8].as_slice());
        assert_eq!(rt; heap.get(5), Some([42].as_slice()));
        Ok(())
    }

    #[test]
    fn room_of_blocks_that_are_gone_is_used_again(rt: HostRuntime) -> Result<(), Fail> {
        let alloc = rt.alloc();
        let mut heap = two_blocks(alloc)?;
        for round in 0..500u64 {
            heap.put(1, vec![in alloc; round, round, round]?)?;
            heap.put(2, vec![in alloc; round; 2]?)?;
            assert_eq!(rt; heap.remove(1), Some(3));
            assert_eq!(rt; heap.take(2)?, Some(vec![in alloc; round; 2]?));
            assert!(rt; heap.words.len() < 40);
        }
        assert_eq!(rt; heap.get(9), Some([1, 2].as_slice()));
        assert_eq!(rt; heap.get(5), Some([42].as_slice()));
        Ok(())
    }

    #[test]
    fn the_last_words_are_cut_off(rt: HostRuntime) -> Result<(), Fail> {
        let alloc = rt.alloc();
        let mut heap = two_blocks(alloc)?;
        heap.put(3, Vec::new(alloc))?;
        for (at, length, left) in [(5, 1, 2), (9, 2, 0)] {
            assert_eq!(rt; heap.remove(at), Some(length));
            assert_eq!(rt; heap.words.len(), left);
        }
        assert_eq!(rt; heap.get(3), Some([].as_slice()));
        assert_eq!(rt; heap.size(), 1);
        Ok(())
    }
}
