//! The index of names.

ghost use Rattle.std.specs.Prelude.{◌≡◌, IfOk, OnOk, List, Option};
ghost use Rattle.aa_decide_ready.specs.Entries.{Loaded};
ghost use Rattle.aa_decide_ready.specs.SlotNames.{slot_named};
ghost use Rattle.aa_decide_ready.specs.Indexes.{IsNameIndexOf, NotesSlot};

use crate::entry::Entry;
use aa_bytes::NameMap;
use std::alloc::{AllocError, Global};

/// Each name of a profile in some slots, with the first slot that has it. Contracts see of which slots it was made (`IsNameIndexOf`).
#[derive(Drop)]
pub struct NameIndex {
    slots: NameMap,
}

impl NameIndex {
    /// The index of the names in these slots. It takes the bytes of each name and some 60 more.
    ///
    /// # Errors
    ///
    /// Where memory runs out.
    pub fn of(alloc: Global, slots: &[Option<Entry>]) -> Result<NameIndex, AllocError>
        ensures { IfOk result (λ index. IsNameIndexOf index slots.now) }
    {
        let mut index = NameIndex {
            slots: NameMap::new(alloc),
        };
        for (place, slot) in slots.iter().enumerate() {
            index.note(alloc, slot, place)?;
        }
        Ok(index)
    }

    // Adds the name in a slot, if it isn't there yet.
    fn note(&mut self, alloc: Global, slot: &Option<Entry>, place: usize) -> Result<(), AllocError>
        ensures { OnOk result (NotesSlot self.old slot.now place self.new) }
    {
        if let Some(entry) = slot {
            let name = entry.profile().name.as_slice();
            if self.slots.get(name).is_none() {
                self.slots.insert(alloc, name, place)?;
            }
        }
        Ok(())
    }

    /// The first slot whose profile has this name, from 0. It takes no memory.
    pub fn slot(&self, name: &[u8]) -> Option<usize>
        ensures { (slots : List (Option Loaded)) → IsNameIndexOf self.now slots → result ≡ slot_named name.now slots }
    {
        self.slots.get(name)
    }
}
