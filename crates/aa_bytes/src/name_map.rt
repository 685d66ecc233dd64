//! Numbers looked up by name.

ghost use Rattle.std.specs.Prelude.{◌≡◌, ℕ, List, None, OnOk, OnErr};
ghost use Rattle.aa_bytes.specs.NameMaps.{GivesNumber, HaveSameNumbers, number_of};

use std::alloc::{AllocError, Global};
use std::collections::BTreeMap;

/// A map from names, which are bytes, to numbers.
#[derive(Drop)]
pub struct NameMap {
    by_name: BTreeMap<Vec<u8>, usize>,
}

impl NameMap {
    /// An empty map. It takes no memory.
    pub fn new(alloc: Global) -> NameMap
        ensures { (name : List ℕ) → number_of result name ≡ None }
    {
        NameMap {
            by_name: BTreeMap::new(alloc),
        }
    }

    /// The number of a name, or `None` where it has none. It takes no memory; `O(log n)` comparisons of names, n being the number of names.
    pub fn get(&self, name: &[u8]) -> Option<usize>
        ensures { result ≡ number_of self.now name.now }
    {
        self.by_name.get(name).copied()
    }

    /// Gives a name a number, replacing the one that it had, if any. It takes a copy of the name, and some 50 bytes more.
    ///
    /// # Errors
    ///
    /// Where memory runs out. The map is then unchanged.
    pub fn insert(&mut self, alloc: Global, name: &[u8], number: usize) -> Result<(), AllocError>
        ensures ok { OnOk result (GivesNumber self.old name.now number self.new) }
        ensures err { OnErr result (HaveSameNumbers self.old self.new) }
    {
        self.by_name.insert(Vec::from_slice(alloc, name)?, number)?;
        Ok(())
    }
}
