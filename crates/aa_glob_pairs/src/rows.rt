//! Rows of pairs of states, by their first state.

ghost use Rattle.std.specs.Prelude.{◌≡◌, ◌++◌, ◌∷◌, [], OnOk};
ghost use Rattle.aa_glob_pairs.specs.Places.{IsNext, StandsAt};
ghost use Rattle.aa_glob_pairs.specs.Waiting.{row_at, SetsRow};

use crate::encoding::{next_place, push_state};
use crate::place::Place;
use std::alloc::{AllocError, Global};
use std::collections::BTreeMap;
use std::marker::Model;

/// The second states of the pairs with one first state, in the order in which they were added; one may be there more than once. Contracts see a
/// list.
#[derive(Drop)]
pub struct Row {
    // Each as its difference from the one before it, in one byte where that is small.
    bytes: Vec<u8>,
    // The last state, or zero where there is none.
    last: u32,
}

impl Model for Row {
    ghost use Rattle.std.specs.Prelude.{◌≡◌, ℕ, List};
    ghost use Rattle.aa_glob_pairs.specs.code.Encoding.{IsEncoded, decoded, last_of};

    ghost Value = { List ℕ };

    ghost view = { λ r. decoded 0 r.bytes.items };

    ghost invariant = { λ r. IsEncoded r.bytes.items × (r.last ≡ last_of 0 (decoded 0 r.bytes.items)) };
}

impl Row {
    /// No state. It takes no memory.
    pub fn new(alloc: Global) -> Row
        ensures { result ≡ [] }
    {
        Row {
            bytes: Vec::new(alloc),
            last: 0,
        }
    }

    /// Appends a state.
    ///
    /// # Errors
    ///
    /// Where memory runs out.
    pub fn push(&mut self, state: u32) -> Result<(), AllocError>
        ensures { OnOk result (self.new ≡ self.old ++ state ∷ []) }
    {
        push_state(&mut self.bytes, self.last, state)?;
        self.last = state;
        Ok(())
    }

    /// The place after the next state, if there is one.
    pub fn next_place(&self, place: Place) -> Option<Place>
        requires { StandsAt place self.now }
        ensures { IsNext result place self.now }
    {
        next_place(&self.bytes, place)
    }
}

/// Rows by their first state, each of which takes memory only while it has pairs. Contracts see the first states that have a row, each with the list
/// of its second states.
#[derive(Drop)]
pub struct Rows {
    // The allocator for new rows.
    alloc: Global,
    rows: BTreeMap<u32, Row>,
}

impl Model for Rows {
    ghost use Rattle.std.specs.Prelude.{ℕ, List};

    ghost Value = { List (ℕ × List ℕ) };

    ghost view = { λ r. r.rows.entries };
}

impl Rows {
    /// No row. It takes no memory.
    pub fn new(alloc: Global) -> Rows
        ensures { result ≡ [] }
    {
        Rows {
            alloc,
            rows: BTreeMap::new(alloc),
        }
    }

    /// Appends a second state to the row of a first one.
    ///
    /// # Errors
    ///
    /// Where memory runs out.
    pub fn push(&mut self, first: u32, second: u32) -> Result<(), AllocError>
        ensures { OnOk result (SetsRow self.old self.new first (row_at self.old first ++ second ∷ [])) }
    {
        match self.rows.get_mut(&first) {
            Some(row) => row.push(second),
            None => self.begin(first, second),
        }
    }

    // Adds the row of a first state, with one second state.
    fn begin(&mut self, first: u32, second: u32) -> Result<(), AllocError>
        ensures { OnOk result (SetsRow self.old self.new first (second ∷ [])) }
    {
        let mut row = Row::new(self.alloc);
        row.push(second)?;
        self.rows.insert(first, row)?;
        Ok(())
    }

    /// The place after the next second state of a first one, if there is one.
    pub fn next_place(&self, first: u32, place: Place) -> Option<Place>
        requires { StandsAt place (row_at self.now first) }
        ensures { IsNext result place (row_at self.now first) }
    {
        match self.rows.get(&first) {
            Some(row) => row.next_place(place),
            None => None,
        }
    }

    /// Removes the row of a first state, and returns it.
    pub fn take(&mut self, first: u32) -> Row
        ensures row { result ≡ row_at self.old first }
        ensures rest { SetsRow self.old self.new first [] }
    {
        match self.rows.remove(&first) {
            Some(row) => row,
            None => Row::new(self.alloc),
        }
    }
}
