//! Pairs of states that wait to be looked at.

ghost use Rattle.std.specs.Prelude.{◌≡◌, ℕ, [], ◌+◌, OnOk, Decides};
ghost use Rattle.aa_glob_pairs.specs.Places.{IsNext, StandsAt};
ghost use Rattle.aa_glob_pairs.specs.Waiting.{Gains, Ordered, row_at, SetsRow};

use crate::place::Place;
use crate::rows::{Row, Rows};
use std::alloc::{AllocError, Global};
use std::marker::Model;
use std::mem;

/// Pairs of states that wait, by their first state. Contracts see some first states, each with the list of its second ones.
#[derive(Drop)]
pub struct Waiting {
    // The allocator for new rows.
    alloc: Global,
    // A first state, its row and that of the state after it. Most pairs are added to these two, without a look-up.
    state: u32,
    row: Row,
    next: Row,
    // The rows of all other states.
    rows: Rows,
}

impl Model for Waiting {
    ghost use Rattle.std.specs.Prelude.{ℕ, List, ◌∷◌, ◌+◌};

    ghost Value = { List (ℕ × List ℕ) };

    ghost view = { λ w. (w.state, w.row) ∷ (w.state + 1, w.next) ∷ w.rows };
}

impl Waiting {
    /// No pair. It takes no memory.
    pub fn new(alloc: Global) -> Waiting
        ensures { (q : ℕ) → row_at result q ≡ [] }
    {
        Waiting {
            alloc,
            state: 0,
            row: Row::new(alloc),
            next: Row::new(alloc),
            rows: Rows::new(alloc),
        }
    }

    /// Adds a pair after the others of its first state.
    ///
    /// # Errors
    ///
    /// Where memory runs out.
    pub fn insert(&mut self, first: u32, second: u32) -> Result<(), AllocError>
        ensures { OnOk result (Gains self.old self.new (λ q r. (q ≡ first) × (r ≡ second))) }
    {
        if first == self.state {
            self.row.push(second)
        } else if is_next(self.state, first) {
            self.next.push(second)
        } else {
            self.rows.push(first, second)
        }
    }

    /// Adds a pair, of which the lesser state becomes the first.
    ///
    /// # Errors
    ///
    /// Where memory runs out.
    pub fn insert_pair(&mut self, one: u32, other: u32) -> Result<(), AllocError>
        ensures { OnOk result (Gains self.old self.new (Ordered (λ q r. (q ≡ one) × (r ≡ other)))) }
    {
        if one <= other {
            self.insert(one, other)
        } else {
            self.insert(other, one)
        }
    }

    /// The place after the next pair of a first state, if there is one. It has the second state of this pair.
    pub fn next_place(&self, first: u32, place: Place) -> Option<Place>
        requires { StandsAt place (row_at self.now first) }
        ensures { IsNext result place (row_at self.now first) }
    {
        if first == self.state {
            self.row.next_place(place)
        } else if is_next(self.state, first) {
            self.next.next_place(place)
        } else {
            self.rows.next_place(first, place)
        }
    }

    /// Drops the pairs of a first state, and gives back their memory.
    pub fn pass(&mut self, first: u32)
        ensures { SetsRow self.old self.new first [] }
    {
        self.rows.take(first);
        if first == self.state {
            if first < u32::MAX - 1 {
                let behind = self.rows.take(first + 2);
                self.row = mem::replace(&mut self.next, behind);
                self.state = first + 1;
            } else {
                self.row = Row::new(self.alloc);
            }
        } else if is_next(self.state, first) {
            self.next = Row::new(self.alloc);
        }
    }
}

// Whether a state is the one after another.
fn is_next(state: u32, first: u32) -> bool
    ensures { Decides result (first ≡ state + 1) }
{
    state < first && first - state == 1
}
