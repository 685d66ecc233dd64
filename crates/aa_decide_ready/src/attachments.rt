//! The index of attachments.

ghost use Rattle.std.specs.Prelude.{◌≡◌, ◌++◌, IfOk, List, Option, OnOk, length, replicate};
ghost use Rattle.aa_decide_ready.specs.Entries.{Loaded};
ghost use Rattle.aa_decide_ready.specs.SlotAttachments.{AreAttaching, attachments_in};
ghost use Rattle.aa_decide_ready.specs.Indexes.{IsAttachmentIndexOf};

use crate::entry::Entry;
use crate::part::pick;
use aa_bytes::Sequence;
use aa_glob::{Automaton, AutomatonBuilder, Steps};
use aa_glob_pattern::Pattern;
use std::alloc::{AllocError, Global};

/// One automaton of the attachments of all profiles in some slots, whatever their states. Contracts see of which slots it was made
/// (`IsAttachmentIndexOf`).
#[derive(Drop)]
pub struct AttachmentIndex {
    automaton: Automaton,
    // The slot of each attachment.
    owners: Sequence<usize>,
}

// The attachments of the profile in a slot; none where it is empty.
fn attachments_in(slot: &Option<Entry>) -> &[Pattern]
    ensures { result.now ≡ attachments_in slot.now }
{
    match slot {
        None => &[],
        Some(entry) => entry.profile().attachments.as_slice(),
    }
}

// Appends a slot `count` times.
fn push_owner(owners: &mut Vec<usize>, slot: usize, count: usize) -> Result<(), AllocError>
    ensures { OnOk result (owners.new.items ≡ owners.old.items ++ replicate count slot) }
{
    for _ in 0..count {
        owners.push(slot)?;
    }
    Ok(())
}

impl AttachmentIndex {
    /// The index of the attachments in these slots.
    ///
    /// # Errors
    ///
    /// Where memory runs out, and where there are more than 4,294,967,295 attachments or states of the automaton.
    pub fn of(alloc: Global, slots: &[Option<Entry>]) -> Result<AttachmentIndex, AllocError>
        ensures { IfOk result (λ index. IsAttachmentIndexOf index slots.now) }
    {
        let mut builder = AutomatonBuilder::new(alloc)?;
        let mut owners = Vec::new(alloc);
        for (place, slot) in slots.iter().enumerate() {
            let attachments = attachments_in(slot);
            builder = builder.add_each(alloc, attachments)?;
            push_owner(&mut owners, place, attachments.len())?;
        }
        Ok(AttachmentIndex {
            automaton: builder.finish(),
            owners: Sequence::from_vec(owners),
        })
    }

    /// The slots whose profile has an attachment that matches a path, from 0, in rising order.
    ///
    /// # Errors
    ///
    /// Where memory runs out.
    pub fn attaching(&self, alloc: Global, path: &[u8]) -> Result<Vec<usize>, AllocError>
        ensures { IfOk result (λ found. (slots : List (Option Loaded)) → IsAttachmentIndexOf self.now slots → AreAttaching path.now slots found.items) }
    {
        let mut found = self.automaton.matching(alloc, path, &mut Steps::new())?;
        pick(self.owners.as_slice(), &mut found);
        found.sort_unstable();
        found.dedup();
        Ok(found)
    }
}
