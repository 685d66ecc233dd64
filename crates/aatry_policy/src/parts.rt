//! The parts of a policy set: its profiles, and the children and hats of these, with their states and with where they are written.

ghost use Rattle.std.specs.Prelude.{◌≡◌, ◌++◌, Some, IfOk, OnOk, map, option_map};
ghost use Rattle.aa_decide_ready.specs.Slots.{filled};
ghost use Rattle.aa_explain.specs.AlikePolicies.{mode_in};
ghost use Rattle.aa_explain_diff.specs.Sections.{seen_section};
ghost use Rattle.aatry_policy.specs.Parts.{child_part, child_parts, child_section, first_of, part_of, profile_part, profile_parts, profile_section, set_parts};
ghost use Rattle.aatry_policy.specs.code.Slots.{left_behind, slot_parts};
ghost use Rattle.aatry_policy.specs.SeenProfiles.{seen_part};

use crate::origins::{Origin, file_of, idle_flags, rule_places};
use aa_bytes::Sequence;
use aa_decide::{Confinement, Entry};
use aa_decide_rules::Mediation;
use aa_explain_diff::Section;
use aa_profile_data::{Child, Mode};
use aa_set_answers::full_name;
use aa_set_manager::PolicySet;
use aa_text_files::Place;
use std::alloc::{AllocError, Global};

/// A profile, or a child or hat of one, with the places of its rules.
#[derive(Drop)]
pub struct Part<'a> {
    /// Its full name.
    pub name: Sequence<u8>,
    /// The name of the file that it is read from.
    pub file: &'a [u8],
    /// What it has; of its flags that decide nothing there are none where they aren't known.
    pub section: Section<'a>,
    /// Where its rules are written.
    pub places: &'a [Option<Place>],
}

// The mode in which a loaded profile confines, or its child or hat at an index; `None` where it is disabled.
fn mode_in(entry: &Entry, child: Option<usize>) -> Option<Mode>
    ensures { result ≡ mode_in entry.now.state child }
{
    match entry.confinement(child) {
        Confinement::Unconfined => None,
        Confinement::ByName => Some(Mode::Unconfined),
        Confinement::By { mediation, .. } => match mediation {
            Mediation::Enforcing => Some(Mode::Enforce),
            Mediation::Complaining => Some(Mode::Complain),
        },
    }
}

// What a loaded profile has by itself, with its flags that decide nothing.
fn profile_section<'a>(flags: &'a [Sequence<u8>], entry: &'a Entry) -> Section<'a>
    ensures { seen_section result ≡ profile_section flags.now entry.now.state entry.now.profile }
{
    let profile = entry.profile();
    Section {
        mode: mode_in(entry, None),
        hat: false,
        audit: profile.audit,
        flags,
        attachments: profile.attachments.as_slice(),
        rules: profile.rules.as_slice(),
    }
}

// What the child or hat at an index of a loaded profile has.
fn child_section<'a>(
    flags: &'a [Sequence<u8>],
    entry: &Entry,
    place: usize,
    child: &'a Child,
) -> Section<'a>
    ensures { seen_section result ≡ child_section flags.now entry.now.state place child.now }
{
    Section {
        mode: mode_in(entry, Some(place)),
        hat: child.hat,
        audit: child.audit,
        flags,
        attachments: child.attachments.as_slice(),
        rules: child.rules.as_slice(),
    }
}

// The part of a loaded profile itself.
fn profile_part<'a>(
    alloc: Global,
    origin: Option<&'a Origin>,
    entry: &'a Entry,
) -> Result<Part<'a>, AllocError>
    ensures { IfOk result (λ part. seen_part part ≡ profile_part (option_map (λ origin. origin.now) origin.entry) entry.now) }
{
    let name = full_name(alloc, entry.profile(), None)?;
    Ok(Part {
        name: Sequence::from_vec(name),
        file: file_of(origin),
        section: profile_section(idle_flags(origin, None), entry),
        places: rule_places(origin, None),
    })
}

// The part of a child or hat of a loaded profile, by its index.
fn child_part<'a>(
    alloc: Global,
    origin: Option<&'a Origin>,
    entry: &Entry,
    place: usize,
    child: &'a Child,
) -> Result<Part<'a>, AllocError>
    ensures { IfOk result (λ part. seen_part part ≡ child_part (option_map (λ origin. origin.now) origin.entry) entry.now place child.now) }
{
    let name = full_name(alloc, entry.profile(), Some(place))?;
    Ok(Part {
        name: Sequence::from_vec(name),
        file: file_of(origin),
        section: child_section(idle_flags(origin, Some(place)), entry, place, child),
        places: rule_places(origin, Some(place)),
    })
}

// Appends the parts of the children and hats of a loaded profile.
fn push_children<'a>(
    alloc: Global,
    origin: Option<&'a Origin>,
    entry: &Entry,
    children: &'a [Child],
    parts: &mut Vec<Part<'a>>,
) -> Result<(), AllocError>
    ensures { OnOk result (map seen_part parts.new.items
        ≡ map seen_part parts.old.items ++ child_parts (option_map (λ origin. origin.now) origin.entry) entry.now 0 children.now) }
{
    let mut place = 0;
    let mut rest = children;
    while let [child, behind @ ..] = rest {
        parts.push(child_part(alloc, origin, entry, place, child)?)?;
        place += 1;
        rest = behind;
    }
    Ok(())
}

// Appends the parts of a loaded profile: itself, and its children and hats.
fn push_entry<'a>(
    alloc: Global,
    origin: Option<&'a Origin>,
    entry: &'a Entry,
    parts: &mut Vec<Part<'a>>,
) -> Result<(), AllocError>
    ensures { OnOk result (map seen_part parts.new.items
        ≡ map seen_part parts.old.items ++ profile_parts (option_map (λ origin. origin.now) origin.entry) entry.now) }
{
    parts.push(profile_part(alloc, origin, entry)?)?;
    push_children(
        alloc,
        origin,
        entry,
        entry.profile().children.as_slice(),
        parts,
    )
}

// The first of some origins, if there is one.
fn first_of(origins: &[Origin]) -> Option<&Origin>
    ensures { option_map (λ origin. origin.now) result ≡ first_of origins.now }
{
    match origins {
        [] => None,
        [origin, ..] => Some(origin),
    }
}

// The origins that are left after that of what a slot holds.
fn left_behind<'a>(slot: &Option<Entry>, origins: &'a [Origin]) -> &'a [Origin]
    ensures { result.now ≡ left_behind slot.now origins.now }
{
    match slot {
        None => origins,
        Some(_) => match origins {
            [] => &[],
            [_, behind @ ..] => behind,
        },
    }
}

// Appends the parts of what a slot holds, with the first of some origins.
fn push_slot<'a>(
    alloc: Global,
    slot: &'a Option<Entry>,
    origins: &'a [Origin],
    parts: &mut Vec<Part<'a>>,
) -> Result<(), AllocError>
    ensures { OnOk result (map seen_part parts.new.items ≡ map seen_part parts.old.items ++ slot_parts slot.now origins.now) }
{
    match slot {
        None => Ok(()),
        Some(entry) => push_entry(alloc, first_of(origins), entry, parts),
    }
}

// The parts of what slots hold, each entry with its own origin.
fn slots_parts<'a>(
    alloc: Global,
    slots: &'a [Option<Entry>],
    origins: &'a [Origin],
) -> Result<Vec<Part<'a>>, AllocError>
    ensures { IfOk result (λ parts. map seen_part parts.items ≡ set_parts (filled slots.now) origins.now) }
{
    let mut parts = Vec::new(alloc);
    let mut left = origins;
    let mut rest = slots;
    while let [slot, behind @ ..] = rest {
        push_slot(alloc, slot, left, &mut parts)?;
        left = left_behind(slot, left);
        rest = behind;
    }
    Ok(parts)
}

/// The parts of a policy set, in its order: each profile, followed by its children and hats in the order of the file. `origins` are where each of
/// its profiles was read, in the order of the set.
///
/// # Errors
///
/// Where memory runs out.
pub fn parts_of<'a>(
    alloc: Global,
    set: &PolicySet<'a>,
    origins: &'a [Origin],
) -> Result<Vec<Part<'a>>, AllocError>
    ensures { IfOk result (λ parts. map seen_part parts.items ≡ set_parts set.now origins.now) }
{
    let slots = set.slots();
    slots_parts(alloc, slots.as_slice(), origins)
}

/// The first of some parts that has a full name, if one has it. `O(n)` in the number of parts. It takes no memory.
pub fn part_of<'p, 'a>(parts: &'p [Part<'a>], who: &[u8]) -> Option<&'p Part<'a>>
    ensures { option_map (λ part. seen_part part.now) result ≡ part_of (map seen_part parts.now) who.now }
{
    let mut rest = parts;
    while let [part, behind @ ..] = rest {
        if part.name.as_slice() == who {
            return Some(part);
        }
        rest = behind;
    }
    None
}
