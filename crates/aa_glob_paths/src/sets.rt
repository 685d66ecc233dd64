//! Sets of states in the order in which they are found.

ghost use Rattle.std.specs.Prelude.{◌≡◌, ◌<◌, [], length, OnOk};
ghost use Rattle.aa_glob_paths.specs.Found.{set_at, origin_at};
ghost use Rattle.aa_glob_paths.specs.code.Closing.{HasPlaced};

use crate::origin::Origin;
use indexmap::IndexMap;
use std::alloc::{AllocError, Global};
use std::marker::Model;

/// Sets of states, each once, in the order in which they were found, with their origins. Contracts see a list.
#[derive(Drop)]
pub struct Sets {
    alloc: Global,
    sets: IndexMap<Vec<u32>, Origin>,
}

impl Model for Sets {
    ghost use Rattle.std.specs.Prelude.{List};
    ghost use Rattle.aa_glob_paths.specs.Found.{FoundSet};
    ghost use Rattle.aa_glob_paths.specs.code.Views.{all_found};

    ghost Value = { List FoundSet };

    ghost view = { λ s. all_found s.sets.entries };
}

impl Sets {
    // No set. It takes no memory.
    pub(crate) fn new(alloc: Global) -> Sets
        ensures { result ≡ [] }
    {
        Sets {
            alloc,
            sets: IndexMap::new(alloc),
        }
    }

    /// How many sets there are. It takes no memory.
    pub fn len(&self) -> usize
        ensures { result ≡ length self.now }
    {
        self.sets.len()
    }

    /// The states of the set of a number, in rising order. It takes no memory.
    pub fn set(&self, number: usize) -> &[u32]
        requires { number < length self.now }
        ensures { result.now ≡ set_at self.now number }
    {
        match self.sets.get_index(number) {
            Some((set, _)) => set.as_slice(),
            None => &[],
        }
    }

    /// How the set of a number was found first. Of the first set, which isn't found from another, the origin has no meaning. It takes no memory.
    pub fn origin(&self, number: usize) -> Origin
        requires { number < length self.now }
        ensures { result ≡ origin_at self.now number }
    {
        match self.sets.get_index(number) {
            Some((_, origin)) => *origin,
            None => Origin { from: 0, byte: 0 },
        }
    }

    // Appends a copy of a set, if it isn't there.
    pub(crate) fn place(&mut self, set: &[u32], origin: Origin) -> Result<(), AllocError>
        ensures { OnOk result (HasPlaced self.old self.new (record { set = set.now; origin = origin })) }
    {
        if self.sets.contains_key(set) {
            return Ok(());
        }
        let own = Vec::from_slice(self.alloc, set)?;
        self.sets.insert(own, origin)?;
        Ok(())
    }
}
