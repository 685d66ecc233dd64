//! The slots of the profiles that a change names.

ghost use Rattle.std.specs.Prelude.{◌≡◌, ◌≢◌, ◌+◌, ◌≤◌, false, true, length, List, IfErr, IfOk, IfSome, OnOk, is_none};
ghost use Rattle.std.specs.List.{list_any};
ghost use Rattle.std.specs.Option.{is_some, option_map};
ghost use Rattle.aa_decide_ready.specs.Named.{entry_named, has_name};
ghost use Rattle.aa_decide_ready.specs.Entries.{fits};
ghost use Rattle.aa_decide_ready.specs.Slots.{filled};
ghost use Rattle.aa_profile_data.specs.declared.profile.Profile.{Profile};
ghost use Rattle.aa_set_manager.specs.Changes.{are_there, is_disabled, some_are_absent, some_are_disabled};
ghost use Rattle.aa_set_manager.specs.code.Places.{behind, is_disabled_at, is_refused, next_behind, place_for, places, refused_as};
ghost use Rattle.aa_set_commands.specs.Refusal.{plain};
ghost use Rattle.aa_set_commands.specs.declared.refusal.RefusalKind.TheVariants.{Memory};
ghost use Rattle.aa_decide_ready.specs.SlotNames.{slot_named, slots_named};

use aa_decide_ready::{IndexedSlots, entry_at, find_named, slots_named};
use aa_profile_data::Profile;
use aa_set_commands::{Refusal, RefusalKind, plain};
use std::alloc::{AllocError, Global};

// Whether a profile of this name is loaded.
fn has_name(slots: &IndexedSlots<'_>, name: &[u8]) -> bool
    ensures { result ≡ has_name name.now (filled slots.now) }
{
    slots.slot_named(name).is_some()
}

// Whether one of these profiles has the name of a loaded one.
fn are_there(slots: &IndexedSlots<'_>, profiles: &[Profile]) -> bool
    ensures { result ≡ are_there profiles.now (filled slots.now) }
{
    profiles
        .iter()
        .any(|profile| has_name(slots, profile.name.as_slice()))
}

// Whether one of these profiles has a name that isn't loaded.
fn some_are_absent(slots: &IndexedSlots<'_>, profiles: &[Profile]) -> bool
    ensures { result ≡ some_are_absent profiles.now (filled slots.now) }
{
    profiles
        .iter()
        .any(|profile| !has_name(slots, profile.name.as_slice()))
}

// Whether the profile of this name is disabled.
fn is_disabled(slots: &IndexedSlots<'_>, name: &[u8]) -> bool
    ensures { result ≡ is_disabled name.now (filled slots.now) }
{
    match find_named(slots, name) {
        None => false,
        Some((_, entry)) => !entry.state().is_in_force(),
    }
}

// Whether the loaded profile of the name of one of these is disabled.
fn some_are_disabled(slots: &IndexedSlots<'_>, profiles: &[Profile]) -> bool
    ensures { result ≡ some_are_disabled profiles.now (filled slots.now) }
{
    profiles
        .iter()
        .any(|profile| is_disabled(slots, profile.name.as_slice()))
}

// Whether some slot was found.
fn some_are_found(found: &[Option<usize>]) -> bool
    ensures { result ≡ list_any is_some found.now }
{
    found.iter().any(|slot| slot.is_some())
}

// Whether some slot wasn't found.
fn some_are_missing(found: &[Option<usize>]) -> bool
    ensures { result ≡ list_any is_none found.now }
{
    found.iter().any(|slot| slot.is_none())
}

// Whether the profile in a slot that was found is disabled.
fn is_disabled_at(slots: &IndexedSlots<'_>, found: Option<usize>) -> bool
    ensures { result ≡ is_disabled_at slots.now found }
{
    let Some(slot) = found else {
        return false;
    };
    match entry_at(slots.as_slice(), slot) {
        None => false,
        Some(entry) => !entry.state().is_in_force(),
    }
}

// Whether the profile in one of the slots that were found is disabled.
fn some_are_disabled_at(slots: &IndexedSlots<'_>, found: &[Option<usize>]) -> bool
    ensures { result ≡ list_any (is_disabled_at slots.now) found.now }
{
    found.iter().any(|slot| is_disabled_at(slots, *slot))
}

/// A change by the profiles of a file.
#[derive(Clone, Copy)]
pub enum FileChange {
    /// They are added: none of their names may be loaded.
    Add,
    /// They replace the profiles of their names: none of these may be disabled.
    Replace,
    /// The profiles of their names are removed: all of them must be loaded.
    Remove,
}

// The refusal of such a change.
fn refused_as(change: FileChange) -> Refusal
    ensures refusal { result ≡ refused_as change }
    ensures known { result ≢ plain Memory }
{
    match change {
        FileChange::Add => plain(RefusalKind::Exists),
        FileChange::Replace => plain(RefusalKind::Disabled),
        FileChange::Remove => plain(RefusalKind::Absent),
    }
}

// Whether a change is refused, by the slots in which the names of its profiles were found.
fn is_refused_at(change: FileChange, slots: &IndexedSlots<'_>, found: &[Option<usize>]) -> bool
    ensures { (profiles : List Profile)
        → found.now ≡ slots_named profiles slots.now
        → result ≡ is_refused change profiles (filled slots.now) }
{
    match change {
        FileChange::Add => some_are_found(found),
        FileChange::Replace => some_are_disabled_at(slots, found),
        FileChange::Remove => some_are_missing(found),
    }
}

// Whether a change is refused, by the names of its profiles, without allocating.
fn is_refused(change: FileChange, slots: &IndexedSlots<'_>, profiles: &[Profile]) -> bool
    ensures { result ≡ is_refused change profiles.now (filled slots.now) }
{
    match change {
        FileChange::Add => are_there(slots, profiles),
        FileChange::Replace => some_are_disabled(slots, profiles),
        FileChange::Remove => some_are_absent(slots, profiles),
    }
}

/// The slots in which the names of the profiles of a change are found, as far as they are loaded.
///
/// # Errors
///
/// `Exists`, `Disabled` or `Absent` where the change is refused, which is found without allocating, and `Memory` where memory ran out.
pub fn found_for(
    alloc: Global,
    change: FileChange,
    slots: &IndexedSlots<'_>,
    profiles: &[Profile],
) -> Result<Vec<Option<usize>>, Refusal>
    ensures found { IfOk result (λ found. found.items ≡ slots_named profiles.now slots.now) }
    ensures ok { OnOk result (is_refused change profiles.now (filled slots.now) ≡ false) }
    ensures refused { IfErr result (λ refusal. refusal ≢ plain Memory → refusal ≡ refused_as change) }
    ensures grounds { IfErr result (λ refusal. refusal ≢ plain Memory → is_refused change profiles.now (filled slots.now) ≡ true) }
    ensures memory { IfErr result (λ refusal. refusal ≡ plain Memory → is_refused change profiles.now (filled slots.now) ≡ false) }
{
    match slots_named(alloc, slots, profiles) {
        Ok(found) => {
            if is_refused_at(change, slots, &found) {
                return Err(refused_as(change));
            }
            Ok(found)
        }
        Err(_) => {
            if is_refused(change, slots, profiles) {
                return Err(refused_as(change));
            }
            Err(plain(RefusalKind::Memory))
        }
    }
}

// The slot into which a profile is loaded: the one where its name was found, or else the next new one.
fn place(next: &mut usize, found: Option<usize>) -> usize
    requires { next.old + 1 ≤ 18446744073709551615 }
    ensures slot { result ≡ place_for next.old found }
    ensures next { next.new ≡ next_behind next.old found }
{
    match found {
        Some(slot) => slot,
        None => {
            let slot = *next;
            *next += 1;
            slot
        }
    }
}

/// The slots into which profiles are loaded: each into the one where its name was found, and the others into new ones from `next` on, which becomes
/// the number after these.
///
/// # Errors
///
/// Where memory runs out.
pub fn places(
    alloc: Global,
    next: &mut usize,
    found: &[Option<usize>],
) -> Result<Vec<usize>, AllocError>
    requires { next.old + length found.now ≤ 18446744073709551615 }
    ensures places { IfOk result (λ made. made.items ≡ places next.old found.now) }
    ensures next { OnOk result (next.new ≡ behind next.old found.now) }
{
    let mut made = Vec::with_capacity(alloc, found.len())?;
    for slot in found {
        made.push(place(next, *slot))?;
    }
    Ok(made)
}
