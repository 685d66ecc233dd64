//! The tree of the beginnings of patterns: which place follows a place by the number of an element.

ghost use Rattle.std.specs.Prelude.{◌≡◌, ◌<◌, ◌+◌, length, None, IfOk, OnOk};
ghost use Rattle.aa_glob.specs.Tree.{HasNoWay, HasOneMore, key, next, nowhere, places};
ghost use Rattle.aa_glob.specs.code.Noted.{NotesOthers};

use std::alloc::{AllocError, Global};
use std::collections::BTreeMap;
use std::marker::Model;

// The number by which no place is found.
const NO_NUMBER: u32 = u32::MAX;

// Two numbers as one.
const NUMBERS: u64 = 1 << 32;

// What is kept for a place that no place follows.
const NOTHING: u16 = 65_535;

// What is kept for a place whose followers are all in the map.
const OTHERS_ALONE: u16 = 65_534;

/// Places from 0 on, of which each but the first follows an earlier one and is found from there by a number.
///
/// Contracts see how many places there are, and which place follows a place by a number. A place takes two bytes. It takes an entry of a map, too,
/// if it wasn't added directly after the place that it follows, or is found by a number from 65,534 on.
#[derive(Drop)]
pub struct Tree {
    // For each place the number by which the place that was added directly after it follows it, or that none does.
    on: Vec<u16>,
    // The other places, by the place that they follow and their number.
    others: BTreeMap<u64, u32>,
}

impl Model for Tree {
    ghost use Rattle.std.specs.Prelude.{◌≤◌, length};
    ghost use Rattle.aa_glob.specs.Tree.{Ways, nowhere};
    ghost use Rattle.aa_glob.specs.code.Noted.{AreNoted};

    ghost Value = { Ways };

    ghost view = { λ t. (t.on.items, t.others.entries) };

    ghost invariant = { λ t. (length t.on.items ≤ nowhere) × AreNoted t.on.items t.others.entries };
}

impl Tree {
    /// The first place alone.
    ///
    /// # Errors
    ///
    /// Where memory runs out.
    pub fn new(alloc: Global) -> Result<Tree, AllocError>
        ensures places { IfOk result (λ tree. places tree ≡ 1) }
        ensures ways { IfOk result (λ tree. HasNoWay tree) }
    {
        let mut on = Vec::new(alloc);
        on.push(NOTHING)?;
        Ok(Tree {
            on,
            others: BTreeMap::new(alloc),
        })
    }

    /// How many places there are. It takes no memory.
    pub fn places(&self) -> usize
        ensures { result ≡ places self.now }
    {
        self.on.len()
    }

    /// The place that follows a place by a number, other than `NO_NUMBER`. It takes no memory.
    pub fn next(&self, place: u32, number: u32) -> Option<u32>
        requires { number < nowhere }
        ensures { result ≡ next self.now place number }
    {
        match self.on.get(place as usize) {
            None => None,
            Some(noted) if *noted == NOTHING => None,
            Some(noted) if *noted as u32 == number && *noted < OTHERS_ALONE => Some(place + 1),
            Some(_) => match self.others.get(&key(place, number)) {
                Some(next) => Some(*next),
                None => None,
            },
        }
    }

    /// Adds a place that follows a place by a number, by which none follows it yet, and returns the new place: how many there were before. The
    /// number isn't `NO_NUMBER`.
    ///
    /// # Errors
    ///
    /// Where memory runs out, and where there are 4,294,967,295 places already.
    pub fn add(&mut self, place: u32, number: u32) -> Result<u32, AllocError>
        requires there { place < places self.now }
        requires number { number < nowhere }
        requires free { next self.now place number ≡ None }
        ensures place { IfOk result (λ added. added ≡ places self.old) }
        ensures places { OnOk result (places self.new ≡ places self.old + 1) }
        ensures ways { OnOk result (HasOneMore self.old place number self.new) }
    {
        let Ok(added) = u32::try_from(self.on.len()) else {
            return Err(AllocError);
        };
        if added == NO_NUMBER {
            return Err(AllocError);
        }
        self.on.push(NOTHING)?;
        if place + 1 == added
            && number < OTHERS_ALONE as u32
            && self.on[place as usize] == NOTHING
        {
            self.on[place as usize] = number as u16;
        } else {
            note_others(&mut self.on, place as usize);
            self.others.insert(key(place, number), added)?;
        }
        Ok(added)
    }
}

// Notes for a place for which nothing is noted yet that its followers are in the map.
fn note_others(on: &mut Vec<u16>, place: usize)
    requires { place < length on.old.items }
    ensures { NotesOthers on.old.items place on.new.items }
{
    if on[place] == NOTHING {
        on[place] = OTHERS_ALONE;
    }
}

// A place and a number as one.
fn key(place: u32, number: u32) -> u64
    ensures { result ≡ key place number }
{
    place as u64 * NUMBERS + number as u64
}
