//! Profiles that no path is attached to.

ghost use Rattle.std.specs.Prelude.{◌≡◌, ◌≤◌, IfOk, count_by, length, map, option_map};
ghost use Rattle.aatry_check_rules.specs.Unattached.{AreUnattachedFound, asks_attachments, has_attachments, is_asked_at, is_file_asked, is_profile_asked, is_too_many, origin_of, some_asks, unattached_count};

use crate::finding::is_named;
use aa_decide_ready::{Entry, IndexedSlots, entry_at};
use aa_explain_reach::unattached_profiles;
use aatry_policy::{Origin, file_of, origin_in};
use std::alloc::{AllocError, Global};

/// Where a loaded profile was read, by its name. `O(n)` in the number of origins. It takes no memory.
pub fn origin_of<'a>(origins: &'a [Origin], entry: &Entry) -> Option<&'a Origin>
    ensures { option_map (λ origin. origin.now) result ≡ origin_of origins.now entry.now }
{
    origin_in(origins, entry.profile().name.as_slice())
}

// Whether a file is asked about: it has one of these names, or there is no name.
fn is_file_asked(names: &[&[u8]], file: &[u8]) -> bool
    ensures { result ≡ is_file_asked (map (λ name. name.now) names.now) file.now }
{
    names.is_empty() || is_named(file, names)
}

/// Whether a loaded profile is asked about: its file has one of these names, or there is no name. It takes no memory.
pub fn is_profile_asked(origins: &[Origin], names: &[&[u8]], entry: &Entry) -> bool
    ensures { result ≡ is_profile_asked origins.now (map (λ name. name.now) names.now) entry.now }
{
    is_file_asked(names, file_of(origin_of(origins, entry)))
}

// Whether a profile in force has attachments.
fn has_attachments(entry: &Entry) -> bool
    ensures { result ≡ has_attachments entry.now }
{
    entry.state().is_in_force() && !entry.profile().attachments.as_slice().is_empty()
}

// Whether a slot holds a profile in force that has attachments and is asked about.
fn asks_attachments(origins: &[Origin], names: &[&[u8]], held: &Option<Entry>) -> bool
    ensures { result ≡ asks_attachments origins.now (map (λ name. name.now) names.now) held.now }
{
    match held {
        None => false,
        Some(entry) => has_attachments(entry) && is_profile_asked(origins, names, entry),
    }
}

// Whether some slot does.
fn some_asks(slots: &[Option<Entry>], origins: &[Origin], names: &[&[u8]]) -> bool
    ensures { result ≡ some_asks slots.now origins.now (map (λ name. name.now) names.now) }
{
    let mut rest = slots;
    while let [held, behind @ ..] = rest {
        if asks_attachments(origins, names, held) {
            return true;
        }
        rest = behind;
    }
    false
}

/// The slots of the profiles in force that have attachments but to which no path is attached (`aa_explain_reach::unattached_profiles`), where such
/// a profile is asked about; none, where no such profile is.
///
/// # Errors
///
/// As `unattached_profiles`.
pub fn find_unattached(
    alloc: Global,
    slots: &IndexedSlots<'_>,
    origins: &[Origin],
    names: &[&[u8]],
    limit: usize,
) -> Result<Option<Vec<usize>>, AllocError>
    ensures { IfOk result (λ found. AreUnattachedFound (some_asks slots.now origins.now (map (λ name. name.now) names.now)) slots.now limit
        (option_map (λ places. places.items) found)) }
{
    if !some_asks(slots.as_slice(), origins, names) {
        return Ok(Some(Vec::new(alloc)));
    }
    match unattached_profiles(alloc, slots, limit)? {
        None => Ok(None),
        Some(places) => Ok(Some(places)),
    }
}

/// Whether the paths by which attachments differ are too many. It takes no memory.
pub fn is_too_many(found: &Option<Vec<usize>>) -> bool
    ensures { result ≡ is_too_many (option_map (λ places. places.items) found.now) }
{
    found.is_none()
}

// Whether what a slot holds is asked about.
fn is_asked_at(slots: &[Option<Entry>], origins: &[Origin], names: &[&[u8]], slot: usize) -> bool
    ensures { result ≡ is_asked_at slots.now origins.now (map (λ name. name.now) names.now) slot }
{
    match entry_at(slots, slot) {
        None => false,
        Some(entry) => is_profile_asked(origins, names, entry),
    }
}

// How many of some slots hold what is asked about.
fn asked_count(
    slots: &[Option<Entry>],
    origins: &[Origin],
    names: &[&[u8]],
    places: &[usize],
) -> usize
    ensures counted { result ≡ count_by (is_asked_at slots.now origins.now (map (λ name. name.now) names.now)) places.now }
    ensures few { result ≤ length places.now }
{
    let mut count: usize = 0;
    let mut rest = places;
    while let [slot, behind @ ..] = rest {
        if is_asked_at(slots, origins, names, *slot) {
            count += 1;
        }
        rest = behind;
    }
    count
}

/// How many of the profiles that are found are asked about. It takes no memory.
pub fn unattached_count(
    slots: &[Option<Entry>],
    origins: &[Origin],
    names: &[&[u8]],
    found: &Option<Vec<usize>>,
) -> usize
    ensures { result ≡ unattached_count slots.now origins.now (map (λ name. name.now) names.now) (option_map (λ places. places.items) found.now) }
{
    match found {
        None => 0,
        Some(places) => asked_count(slots, origins, names, places),
    }
}
