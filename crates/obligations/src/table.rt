//! `Table`: the rows in the order in which their items came. No two rows have one item and number.

ghost use Rattle.std.specs.Prelude.{◌≡◌, ◌<◌, ◌++◌, [], false, length, slice_get, option_map, OnOk, OnErr, IfOk, MatchOption};
ghost use Rattle.std.specs.List.{position};
ghost use Rattle.obligations.specs.Rows.{numbered, AreDistinct, NoneOf, open_places, is_free, is_proved, ChangesTo};
ghost use Rattle.obligations.specs.Claims.{NoneNamed, ClaimGives, IsNamed, is_of, claimed_as};
ghost use Rattle.obligations.specs.declared.row.State.TheVariants.{Proved};

use crate::claims::ClaimStop;
use crate::row::{Row, State};
use htt_syntax::Sequent;
use std::alloc::{AllocError, Global};

/// The obligations of a file.
#[derive(Drop)]
pub struct Table {
    alloc: Global,
    rows: Vec<Row>,
    ghost distinct: { AreDistinct rows.items },
}

impl Table {
    ghost use Rattle.obligations.specs.Tables.{rows_of};

    /// The table without a row. It takes no memory.
    pub fn new(alloc: Global) -> Table
        ensures empty { rows_of result ≡ [] }
    {
        Table {
            alloc,
            rows: Vec::new(alloc),
        }
    }

    /// How many rows there are. It takes no memory.
    pub fn len(&self) -> usize
        ensures count { result ≡ length (rows_of self.now) }
    {
        self.rows.len()
    }

    /// The item that owes this row. It takes no memory.
    pub fn item(&self, row: usize) -> u32
        requires is_row { row < length (rows_of self.now) }
        ensures item { option_map (λ r. r.item) (slice_get (rows_of self.now) row) ≡ Some result }
    {
        self.rows[row].item
    }

    /// The number of this row among those of its item, counted from 1. It takes no memory.
    pub fn number(&self, row: usize) -> u64
        requires is_row { row < length (rows_of self.now) }
        ensures number { option_map (λ r. r.number) (slice_get (rows_of self.now) row) ≡ Some result }
    {
        self.rows[row].number
    }

    /// What is owed in this row. It takes no memory.
    pub fn sequent(&self, row: usize) -> &Sequent
        requires is_row { row < length (rows_of self.now) }
        ensures sequent { option_map (λ r. r.sequent) (slice_get (rows_of self.now) row) ≡ Some result.now }
    {
        &self.rows[row].sequent
    }

    /// Whether no proof of the file has claimed this row, nor proved it. It takes no memory.
    pub fn is_free(&self, row: usize) -> bool
        requires is_row { row < length (rows_of self.now) }
        ensures free { option_map is_free (slice_get (rows_of self.now) row) ≡ Some result }
    {
        self.rows[row].state == State::Free
    }

    /// Adds what an item owes, which has no row yet: its rows come last, in order, numbered from 1, and are free.
    /// Where memory is wanting nothing has changed.
    #[tactic(auto, using(crate::proofs::Rows::added_distinct))]
    pub fn add(&mut self, item: u32, owed: Vec<Sequent>) -> Result<(), AllocError>
        requires new_item { NoneOf item (rows_of self.old) }
        ensures added { OnOk result (rows_of self.new ≡ rows_of self.old ++ numbered item 0 owed.items) }
        ensures unchanged { OnErr result (rows_of self.new ≡ rows_of self.old) }
    {
        let mut rows = numbered(self.alloc, item, owed)?;
        self.rows.append(&mut rows)
    }

    /// A proof of the file for this number of this item, or of no item, which is left to the provers where it is
    /// `auto`: the row that it claims, or why it claims none; then nothing has changed. It takes no memory.
    pub fn claim(
        &mut self,
        target: Option<u32>,
        number: u64,
        auto: bool,
    ) -> Result<usize, ClaimStop>
        ensures claimed { ClaimGives target number auto (rows_of self.old) (rows_of self.new) result }
    {
        let Some(row) = self.place_of(target, number) else {
            return Err(ClaimStop::Stray);
        };
        if !self.is_free(row) {
            return Err(ClaimStop::Twice);
        }
        self.change(row, claimed_as(auto));
        Ok(row)
    }

    /// Gives a row another state.
    #[tactic(auto, using(crate::proofs::Rows::changed_distinct))]
    fn change(&mut self, row: usize, state: State)
        requires is_row { row < length (rows_of self.old) }
        ensures changed { ChangesTo state row (rows_of self.old) (rows_of self.new) }
    {
        self.rows[row].state = state;
    }

    /// The row of this number of this item.
    #[tactic(auto, using(crate::proofs::Places::none_without_item, crate::proofs::Places::named_found))]
    fn place_of(&self, target: Option<u32>, number: u64) -> Option<usize>
        ensures found { MatchOption result (NoneNamed target number (rows_of self.now)) (λ row. IsNamed target number (rows_of self.now) row) }
    {
        place_in(self.rows.as_slice(), target?, number)
    }

    /// Notes that this row, which wasn't proved, has a proof. It takes no memory.
    pub fn prove(&mut self, row: usize)
        requires is_row { row < length (rows_of self.old) }
        requires not_proved { option_map is_proved (slice_get (rows_of self.old) row) ≡ Some false }
        ensures proved { ChangesTo Proved row (rows_of self.old) (rows_of self.new) }
    {
        self.change(row, State::Proved);
    }

    /// The rows that aren't proved, in order. It fails for want of memory alone.
    #[tactic(auto, using(crate::proofs::Open::open_here, crate::proofs::Open::open_past, crate::proofs::Open::open_none))]
    pub fn unproved(&self) -> Result<Vec<usize>, AllocError>
        ensures in_order { IfOk result (λ rows. rows.items ≡ open_places 0 (rows_of self.now)) }
    {
        let mut left = Vec::new(self.alloc);
        for (place, row) in self.rows.iter().enumerate() {
            if row.state != State::Proved {
                left.push(place)?;
            }
        }
        Ok(left)
    }
}

/// The state of a row that was claimed.
fn claimed_as(auto: bool) -> State
    ensures state { result ≡ claimed_as auto }
{
    if auto { State::Left } else { State::Proved }
}

/// The first of the rows that is of this item and number.
fn place_in(rows: &[Row], item: u32, number: u64) -> Option<usize>
    ensures first { result ≡ position (is_of item number) rows.now }
{
    rows.iter()
        .position(|row| row.item == item && row.number == number)
}

/// The rows of an item that owes these sequents.
fn numbered(alloc: Global, item: u32, owed: Vec<Sequent>) -> Result<Vec<Row>, AllocError>
    ensures rows { IfOk result (λ rows. rows.items ≡ numbered item 0 owed.items) }
{
    let mut rows = Vec::with_capacity(alloc, owed.len())?;
    for (place, sequent) in owed.into_iter().enumerate() {
        rows.push(Row {
            item,
            number: place as u64 + 1,
            sequent,
            state: State::Free,
        })?;
    }
    Ok(rows)
}
