//! Slots with indices over them.

ghost use Rattle.std.specs.Prelude.{◌≡◌, IfOk, IfSome};
ghost use Rattle.aa_decide_ready.specs.SlotAttachments.{AreAttaching};
ghost use Rattle.aa_decide_ready.specs.SlotNames.{slot_named};
ghost use Rattle.aa_decide_ready.specs.Indexes.{ArePlaces, IsAttachmentIndexOf, IsNameIndexOf};

use crate::attachments::AttachmentIndex;
use crate::entry::Entry;
use crate::names::NameIndex;
use crate::slots::slot_named;
use std::alloc::{AllocError, Global};
use std::marker::Model;

/// Slots, each of which is empty or holds a loaded profile, with indices of names and attachments, where these were made. Contracts see the list of
/// the slots alone: indices change no answer.
#[derive(Drop)]
pub struct IndexedSlots<'a> {
    slots: &'a [Option<Entry>],
    names: Option<&'a NameIndex>,
    attachments: Option<&'a AttachmentIndex>,
}

impl<'a> Model for IndexedSlots<'a> {
    ghost use Rattle.std.specs.Prelude.{List, Option, IfSome};
    ghost use Rattle.aa_decide_ready.specs.Entries.{Loaded};
    ghost use Rattle.aa_decide_ready.specs.Indexes.{IsAttachmentIndexOf, IsNameIndexOf};

    ghost Value = { List (Option Loaded) };

    ghost view = { λ s. s.slots.now };

    ghost invariant = { λ s.
        IfSome s.names (λ index. IsNameIndexOf index.now s.slots.now)
        × IfSome s.attachments (λ index. IsAttachmentIndexOf index.now s.slots.now) };
}

impl<'a> IndexedSlots<'a> {
    /// Slots without indices. It takes no memory.
    pub fn of(slots: &'a [Option<Entry>]) -> IndexedSlots<'a>
        ensures { result ≡ slots.now }
    {
        IndexedSlots {
            slots,
            names: None,
            attachments: None,
        }
    }

    /// Slots with the indices that were made of them. It takes no memory.
    pub fn with(
        slots: &'a [Option<Entry>],
        names: Option<&'a NameIndex>,
        attachments: Option<&'a AttachmentIndex>,
    ) -> IndexedSlots<'a>
        requires names { IfSome names (λ index. IsNameIndexOf index.now slots.now) }
        requires attachments { IfSome attachments (λ index. IsAttachmentIndexOf index.now slots.now) }
        ensures { result ≡ slots.now }
    {
        IndexedSlots {
            slots,
            names,
            attachments,
        }
    }

    /// The slots themselves. It takes no memory.
    pub fn as_slice(&self) -> &'a [Option<Entry>]
        ensures { result.now ≡ self.now }
    {
        self.slots
    }

    // Whether there is an index of names.
    pub(crate) fn has_names(&self) -> bool {
        self.names.is_some()
    }

    /// The first slot whose profile has this name, from 0. It takes no memory.
    pub fn slot_named(&self, name: &[u8]) -> Option<usize>
        ensures { result ≡ slot_named name.now self.now }
    {
        match self.names {
            None => slot_named(self.slots, name),
            Some(index) => index.slot(name),
        }
    }

    /// The slots whose profile may have an attachment that matches a path, from 0, in rising order: with an index of attachments those that have
    /// one, and else all.
    ///
    /// # Errors
    ///
    /// Where memory runs out.
    pub fn attaching(&self, alloc: Global, path: &[u8]) -> Result<Vec<usize>, AllocError>
        ensures { IfOk result (λ found. AreAttaching path.now self.now found.items) }
    {
        match self.attachments {
            None => all_places(alloc, self.slots.len()),
            Some(index) => index.attaching(alloc, path),
        }
    }
}

// The numbers below `count`, in rising order.
fn all_places(alloc: Global, count: usize) -> Result<Vec<usize>, AllocError>
    ensures { IfOk result (λ places. ArePlaces count places.items) }
{
    let mut places = Vec::with_capacity(alloc, count)?;
    for place in 0..count {
        places.push(place)?;
    }
    Ok(places)
}
