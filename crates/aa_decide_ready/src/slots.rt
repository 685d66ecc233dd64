//! Slots, each of which is empty or holds a loaded profile.

ghost use Rattle.std.specs.Prelude.{◌≡◌, true, IfOk, IfSome, List, Option, Some};
ghost use Rattle.std.specs.Option.{option_copied, option_map};
ghost use Rattle.aa_decide_ready.specs.Named.{entry_named};
ghost use Rattle.aa_decide_ready.specs.SlotNames.{holds, slot_named, slots_named};
ghost use Rattle.aa_decide_ready.specs.Indexes.{IsNameIndexOf};
ghost use Rattle.aa_decide_ready.specs.Entries.{Loaded, fits};
ghost use Rattle.aa_decide_ready.specs.Slots.{entry_at, filled};

use crate::entry::Entry;
use crate::indexed::IndexedSlots;
use crate::names::NameIndex;
use aa_profile_data::Profile;
use std::alloc::{AllocError, Global};

// Up to so many names are looked up by going over the slots for each.
const FEW: usize = 32;

/// The entry in a slot, if it exists and is filled. It takes no memory; `O(1)`.
pub fn entry_at(slots: &[Option<Entry>], slot: usize) -> Option<&Entry>
    ensures { option_copied result ≡ entry_at slots.now slot }
{
    match slots.get(slot) {
        Some(Some(entry)) => Some(entry),
        _ => None,
    }
}

// Whether a slot holds a profile of this name.
fn holds(slot: &Option<Entry>, name: &[u8]) -> bool
    ensures { result ≡ holds name.now slot.now }
{
    match slot {
        None => false,
        Some(entry) => entry.profile().name.as_slice() == name,
    }
}

/// The first slot whose profile has this name, from 0. `O(n)` in the number of slots. It takes no memory.
pub fn slot_named(slots: &[Option<Entry>], name: &[u8]) -> Option<usize>
    ensures { result ≡ slot_named name.now slots.now }
{
    slots.iter().position(|slot| holds(slot, name))
}

/// The entry whose profile has this name, in whatever state it is, and its slot; `None` where there is none. It takes no memory.
pub fn find_named<'a>(slots: &IndexedSlots<'a>, name: &[u8]) -> Option<(usize, &'a Entry)>
    ensures slot { option_map (λ found. found.0) result ≡ slot_named name.now slots.now }
    ensures found { option_map (λ found. found.1.now) result ≡ entry_named name.now (filled slots.now) }
    ensures at { IfSome result (λ found. entry_at slots.now found.0 ≡ Some found.1.now) }
    ensures fits { IfSome result (λ found. fits found.1.now.profile found.1.now.state ≡ true) }
{
    match slots.slot_named(name) {
        None => None,
        Some(slot) => match entry_at(slots.as_slice(), slot) {
            None => None,
            Some(entry) => {
                let _state = entry.state();
                Some((slot, entry))
            }
        },
    }
}

// The first slot for each of these profiles, in their order.
fn one_by_one(
    alloc: Global,
    slots: &IndexedSlots<'_>,
    profiles: &[Profile],
) -> Result<Vec<Option<usize>>, AllocError>
    ensures { IfOk result (λ found. found.items ≡ slots_named profiles.now slots.now) }
{
    let mut found = Vec::with_capacity(alloc, profiles.len())?;
    for profile in profiles {
        found.push(slots.slot_named(profile.name.as_slice()))?;
    }
    Ok(found)
}

// The first slot for each of these profiles, in their order, by an index of the names.
fn by_names(
    alloc: Global,
    names: &NameIndex,
    profiles: &[Profile],
) -> Result<Vec<Option<usize>>, AllocError>
    ensures { IfOk result (λ found. (slots : List (Option Loaded)) → IsNameIndexOf names.now slots → found.items ≡ slots_named profiles.now slots) }
{
    let mut found = Vec::with_capacity(alloc, profiles.len())?;
    for profile in profiles {
        found.push(names.slot(profile.name.as_slice()))?;
    }
    Ok(found)
}

/// For each of these profiles, in their order, the first slot whose profile has its name, from 0. The slots are gone over at most once, unless the
/// profiles are few, where that takes less memory.
///
/// # Errors
///
/// Where memory runs out.
pub fn slots_named(
    alloc: Global,
    slots: &IndexedSlots<'_>,
    profiles: &[Profile],
) -> Result<Vec<Option<usize>>, AllocError>
    ensures { IfOk result (λ found. found.items ≡ slots_named profiles.now slots.now) }
{
    if slots.has_names() || profiles.len() <= FEW {
        return one_by_one(alloc, slots, profiles);
    }
    let names = NameIndex::of(alloc, slots.as_slice())?;
    by_names(alloc, &names, profiles)
}
