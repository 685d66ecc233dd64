//! Slots, each of which is empty or holds a loaded profile.

ghost use Rattle.std.specs.Prelude.{◌≡◌, ◌<◌, ◌≤◌, [], true, OnOk, length, vec_len};
ghost use Rattle.std.specs.List.{All, list_all};
ghost use Rattle.aa_decide_ready.specs.Indexes.{HoldSame};
ghost use Rattle.aa_set_parts.specs.Parts.{after, back, exchanged, is_state, left};
ghost use Rattle.aa_set_parts.specs.Remembered.{most_remembered};
ghost use Rattle.aa_set_parts.specs.Slots.{trimmed};

use crate::parts::{Content, Part};
use crate::remembered::{Remembered, Warm};
use aa_decide_ready::{AttachmentIndex, Entry, IndexedSlots, NameIndex};
use std::alloc::{AllocError, Global};
use std::marker::Model;

// So many times names and attachments are looked up by going over the slots, before an index of them is made.
const SEVERAL: u8 = 3;

/// Slots, each of which is empty or holds a loaded profile. Contracts see the list of the slots, with the empty ones.
pub struct Slots {
    alloc: Global,
    slots: Vec<Option<Entry>>,
    // The indices over the slots, until the profiles in them change. Contracts don't see them.
    names: Option<NameIndex>,
    attachments: Option<AttachmentIndex>,
    // How often an index was asked for since then, up to `SEVERAL`.
    asked: u8,
    // For which profiles runs are remembered.
    remembered: Remembered,
}

impl Drop for Slots {
    // Proved here, once for all crates that own one.
    fn drop(self) {
        let Slots {
            alloc: _,
            slots,
            names,
            attachments,
            asked: _,
            remembered,
        } = self;
        drop(slots);
        drop(names);
        drop(attachments);
        drop(remembered);
    }
}

impl Model for Slots {
    ghost use Rattle.std.specs.Prelude.{◌≤◌, List, Option, IfSome};
    ghost use Rattle.aa_set_parts.specs.Remembered.{most_remembered};
    ghost use Rattle.aa_set_parts.specs.code.Askers.{taken};
    ghost use Rattle.aa_decide_ready.specs.Indexes.{IsAttachmentIndexOf, IsNameIndexOf};
    ghost use Rattle.aa_decide_ready.specs.Entries.{Loaded};

    ghost Value = { List (Option Loaded) };

    ghost view = { λ s. s.slots.items };

    ghost invariant = { λ s.
        IfSome s.names (λ index. IsNameIndexOf index s.slots.items)
        × IfSome s.attachments (λ index. IsAttachmentIndexOf index s.slots.items)
        × (taken s.remembered ≤ most_remembered) };
}

impl Slots {
    /// No slot. It takes no memory.
    pub fn new(alloc: Global) -> Slots
        ensures { result ≡ [] }
    {
        Slots {
            alloc,
            slots: Vec::new(alloc),
            names: None,
            attachments: None,
            asked: 0,
            remembered: Remembered::new(alloc),
        }
    }

    /// The slots, with the empty ones. It takes no memory.
    pub fn as_slice(&self) -> &[Option<Entry>]
        ensures { result.now ≡ self.now }
    {
        self.slots.as_slice()
    }

    /// The slots with the indices over them. It takes no memory.
    pub fn indexed(&self) -> IndexedSlots<'_>
        ensures { result ≡ self.now }
    {
        IndexedSlots::with(&self.slots, self.names.as_ref(), self.attachments.as_ref())
    }

    /// Makes an index of the names in the slots, and one of attachments if `attachments`, if they aren't there. It does nothing the first few times
    /// after the profiles in the slots have changed; and where memory runs out, there is no index. Contracts don't see it.
    pub fn index(&mut self, attachments: bool)
        ensures { self.new ≡ self.old }
    {
        if self.asked < SEVERAL {
            self.asked += 1;
            return;
        }
        if self.names.is_none() {
            self.names = NameIndex::of(self.alloc, &self.slots).ok();
        }
        if attachments && self.attachments.is_none() {
            self.attachments = AttachmentIndex::of(self.alloc, &self.slots).ok();
        }
    }

    /// The number of the slot after the last filled one: from there on a change can fill empty slots. It takes no memory.
    pub fn end(&self) -> usize
        ensures end { result ≡ length (trimmed self.now) }
        ensures small { result < 9223372036854775808 }
    {
        end_of(&self.slots)
    }

    // Appends empty slots, until there are `many`.
    pub(crate) fn grow(&mut self, many: usize) -> Result<(), AllocError>
        ensures same { trimmed self.new ≡ trimmed self.old }
        ensures grows { length self.old ≤ length self.new }
        ensures ok { OnOk result (many ≤ length self.new) }
    {
        if many <= self.slots.len() {
            return Ok(());
        }
        self.names = None;
        self.attachments = None;
        self.asked = 0;
        grow(&mut self.slots, many)
    }

    // Exchanges parts with their slots, one after the other, and reverses the order of the parts.
    pub(crate) fn exchange(&mut self, parts: &mut Vec<Part>)
        requires { All (λ part. part.slot < length self.old) parts.old.items }
        ensures slots { trimmed self.new ≡ after (trimmed self.old) parts.old.items }
        ensures parts { parts.new.items ≡ back (trimmed self.old) parts.old.items }
        ensures room { length self.new ≡ length self.old }
    {
        if are_states(parts) {
            self.exchange_states(parts);
        } else {
            self.exchange_any(parts);
        }
    }

    // Exchanges parts that are states alone: indices and what is remembered stay.
    fn exchange_states(&mut self, parts: &mut Vec<Part>)
        requires within { All (λ part. part.slot < length self.old) parts.old.items }
        requires states { list_all is_state parts.old.items ≡ true }
        ensures slots { trimmed self.new ≡ after (trimmed self.old) parts.old.items }
        ensures parts { parts.new.items ≡ back (trimmed self.old) parts.old.items }
        ensures room { length self.new ≡ length self.old }
    {
        exchange_all(&mut self.slots, parts);
    }

    // Exchanges any parts: indices are dropped, and what is remembered is forgotten, so that none of it leaves the slots with a profile.
    fn exchange_any(&mut self, parts: &mut Vec<Part>)
        requires { All (λ part. part.slot < length self.old) parts.old.items }
        ensures slots { trimmed self.new ≡ after (trimmed self.old) parts.old.items }
        ensures parts { parts.new.items ≡ back (trimmed self.old) parts.old.items }
        ensures room { length self.new ≡ length self.old }
    {
        self.names = None;
        self.attachments = None;
        self.asked = 0;
        self.remembered.forget_all(&mut self.slots);
        exchange_all(&mut self.slots, parts);
    }

    /// Remembers which states are live at the places of a path, for the profile in a slot or for its child or hat at an index (`Entry::remember`),
    /// for all of them together at most `most_remembered` bytes: where it would be more, what is remembered for the one is forgotten for whom nothing
    /// was added for the longest time. It is kept until the profiles in the slots change. Where all of it is remembered now, the question is
    /// recognized by its fingerprint (`is_remembered`). Contracts don't see it.
    pub fn remember(&mut self, slot: usize, child: Option<usize>, path: &[u8], fingerprint: u32)
        ensures { self.new ≡ self.old }
    {
        let warm = Warm { slot, child };
        if slot < self.slots.len()
            && self.remembered.keep(warm)
            && remember(&mut self.slots[slot], self.alloc, child, path)
        {
            self.remembered.note(fingerprint);
        }
        self.remembered.settle(&mut self.slots, warm);
    }

    /// How many bytes are remembered, for all profiles, children and hats together. It takes no memory.
    pub fn remembered_bytes(&self) -> usize
        ensures { result ≤ most_remembered }
    {
        self.remembered.bytes()
    }

    /// Whether no more is to be remembered for the path of a question with this fingerprint. Contracts don't see it.
    pub fn is_remembered(&self, fingerprint: u32) -> bool {
        self.remembered.has(fingerprint)
    }
}

// Remembers which states are live at the places of a path, for the profile in a slot, if it is filled. Returns whether all of it is remembered now.
fn remember(slot: &mut Option<Entry>, alloc: Global, child: Option<usize>, path: &[u8]) -> bool
    ensures { slot.new ≡ slot.old }
{
    match slot {
        None => false,
        Some(entry) => entry.remember(alloc, child, path),
    }
}

// The number of the slot after the last filled one.
fn end_of(slots: &[Option<Entry>]) -> usize
    ensures end { result ≡ length (trimmed slots.now) }
    ensures within { result ≤ length slots.now }
{
    let mut end = slots.len();
    while end > 0 && slots[end - 1].is_none() {
        end -= 1;
    }
    end
}

// Appends empty slots, until there are `many`.
fn grow(slots: &mut Vec<Option<Entry>>, many: usize) -> Result<(), AllocError>
    ensures same { trimmed slots.new.items ≡ trimmed slots.old.items }
    ensures grows { vec_len slots.old ≤ vec_len slots.new }
    ensures ok { OnOk result (many ≤ vec_len slots.new) }
{
    while slots.len() < many {
        slots.push(None)?;
    }
    Ok(())
}

// Exchanges a part with its slot.
fn exchange(slots: &mut Vec<Option<Entry>>, part: &mut Part)
    requires { part.old.slot < length slots.old.items }
    ensures slots { trimmed slots.new.items ≡ exchanged part.old slots.old.items }
    ensures part { part.new ≡ left part.old slots.old.items }
    ensures length { length slots.new.items ≡ length slots.old.items }
    ensures same { is_state part.old ≡ true → HoldSame slots.new.items slots.old.items }
{
    part.content.exchange(&mut slots[part.slot]);
}

// Whether all of some parts exchange a state alone.
fn are_states(parts: &[Part]) -> bool
    ensures { result ≡ list_all is_state parts.now }
{
    parts.iter().all(is_state)
}

// Whether a part exchanges a state alone.
fn is_state(part: &Part) -> bool
    ensures { result ≡ is_state part.now }
{
    match part.content {
        Content::Whole(_) => false,
        Content::InState(_) => true,
    }
}

// Exchanges parts with their slots, one after the other, and reverses the order of the parts.
fn exchange_all(slots: &mut Vec<Option<Entry>>, parts: &mut [Part])
    requires { All (λ part. part.slot < length slots.old.items) parts.old }
    ensures slots { trimmed slots.new.items ≡ after (trimmed slots.old.items) parts.old }
    ensures parts { parts.new ≡ back (trimmed slots.old.items) parts.old }
    ensures length { length slots.new.items ≡ length slots.old.items }
    ensures same { list_all is_state parts.old ≡ true → HoldSame slots.new.items slots.old.items }
{
    for at in 0..parts.len() {
        exchange(slots, &mut parts[at]);
    }
    parts.reverse();
}
