//! Profiles in force, by their names.

ghost use Rattle.std.specs.Prelude.{◌≡◌, IfSome, Some};
ghost use Rattle.std.specs.Option.{option_map};
ghost use Rattle.aa_decide.specs.Exec.{by_full_name, is_named_in_force, named_in_force};
ghost use Rattle.aa_decide.specs.SeenExec.{IsDestination};
ghost use Rattle.aa_decide_ready.specs.Slots.{entry_at, filled};

use crate::asker::{named_in, under};
use aa_decide_ready::{Entry, IndexedSlots, find_named};
use aa_decide_rules::ExecTo;
use aa_profile_data::cut_full_name;

// Whether a profile is in force and has this name.
fn is_named_in_force(entry: &Entry, name: &[u8]) -> bool
    ensures { result ≡ is_named_in_force name.now entry.now }
{
    entry.state().is_in_force() && entry.profile().name.as_slice() == name
}

// The profile in force of this name, and its slot, by going over all slots.
fn scan_in_force<'a>(slots: &'a [Option<Entry>], name: &[u8]) -> Option<(usize, &'a Entry)>
    ensures found { option_map (λ found. found.1.now) result ≡ named_in_force name.now (filled slots.now) }
    ensures at { IfSome result (λ found. entry_at slots.now found.0 ≡ Some found.1.now) }
{
    for (place, slot) in slots.iter().enumerate() {
        if let Some(entry) = slot {
            if is_named_in_force(entry, name) {
                return Some((place, entry));
            }
        }
    }
    None
}

// The profile in force of this name, and its slot. All slots are gone over only where the first profile of the name isn't in force.
pub fn find_in_force<'a>(slots: &IndexedSlots<'a>, name: &[u8]) -> Option<(usize, &'a Entry)>
    ensures found { option_map (λ found. found.1.now) result ≡ named_in_force name.now (filled slots.now) }
    ensures at { IfSome result (λ found. entry_at slots.now found.0 ≡ Some found.1.now) }
{
    match find_named(slots, name) {
        None => None,
        Some((slot, entry)) => {
            if entry.state().is_in_force() {
                Some((slot, entry))
            } else {
                scan_in_force(slots.as_slice(), name)
            }
        }
    }
}

// The profile, child or hat in force of a full name.
pub fn by_full_name<'a>(slots: &IndexedSlots<'_>, name: &[u8]) -> Option<ExecTo<'a>>
    ensures { IsDestination slots.now result (by_full_name name.now (filled slots.now)) }
{
    let (profile, child) = cut_full_name(name);
    let (slot, entry) = find_in_force(slots, profile)?;
    Some(under(named_in(slot, entry, child)?))
}
