//! Which of the profiles in force attaches to a program, by its path.

ghost use Rattle.std.specs.Prelude.{◌≡◌, IfOk, map, slice_get};
ghost use Rattle.aa_decide_rules.specs.Ranks.{best_rank};
ghost use Rattle.aa_decide.specs.Attachment.{attached, attached_child, entry_rank};
ghost use Rattle.aa_decide_ready.specs.Slots.{Holds, entry_at, filled};
ghost use Rattle.aa_decide.specs.code.SlotRanks.{slot_rank};

use aa_decide_ready::{Entry, IndexedSlots, Ready, ReadySection, Steps, entry_at};
use aa_decide_rules::{best_rank, standing_out, which_rank_stands_out};
use std::alloc::{AllocError, Global};

// The rank of a profile, or of a child or hat, on a path.
fn section_rank(alloc: Global, section: ReadySection<'_>, path: &[u8]) -> Result<u128, AllocError>
    ensures { IfOk result (λ rank. rank ≡ best_rank path.now section.entry.attachments.now) }
{
    let places = section.matching_attachments(alloc, path, &mut Steps::new())?;
    Ok(best_rank(section.attachments, places.as_slice()))
}

// The rank of a loaded profile on a path.
fn entry_rank(alloc: Global, entry: &Entry, path: &[u8]) -> Result<u128, AllocError>
    ensures { IfOk result (λ rank. rank ≡ entry_rank path.now entry.now) }
{
    if entry.state().is_in_force() {
        section_rank(alloc, entry.ready().section(None), path)
    } else {
        Ok(0)
    }
}

// The rank of the profile in a slot, 0 where it is empty.
fn rank_at(
    alloc: Global,
    slots: &[Option<Entry>],
    slot: usize,
    path: &[u8],
) -> Result<u128, AllocError>
    ensures { IfOk result (λ rank. rank ≡ slot_rank path.now (entry_at slots.now slot)) }
{
    match entry_at(slots, slot) {
        None => Ok(0),
        Some(entry) => entry_rank(alloc, entry, path),
    }
}

// The rank of the profile in each of these slots.
fn ranks_at(
    alloc: Global,
    slots: &[Option<Entry>],
    places: &[usize],
    path: &[u8],
) -> Result<Vec<u128>, AllocError>
    ensures { IfOk result (λ ranks. ranks.items ≡ map (λ slot. slot_rank path.now (entry_at slots.now slot)) places.now) }
{
    let mut ranks = Vec::with_capacity(alloc, places.len())?;
    for place in places {
        ranks.push(rank_at(alloc, slots, *place, path)?)?;
    }
    Ok(ranks)
}

// The slot at an index of a list, if there is one.
fn slot_at(slots: &[usize], place: usize) -> Option<usize>
    ensures { result ≡ slice_get slots.now place }
{
    slots.get(place).copied()
}

/// The slot of the profile in force that attaches to the program of a path (docs/policy.md, "Exec and attachment"): the one whose best attachment on
/// this path ranks higher than that of any other. `None` where no attachment matches, and where two share the best rank. The contract speaks of the
/// filled slots in their order, and the result is always a filled one.
///
/// # Errors
///
/// Where memory runs out.
pub fn attach(
    alloc: Global,
    slots: &IndexedSlots<'_>,
    path: &[u8],
) -> Result<Option<usize>, AllocError>
    ensures { IfOk result (λ slot. Holds slots.now slot (attached path.now (filled slots.now))) }
{
    which_rank_stands_out();
    let places = slots.attaching(alloc, path)?;
    let ranks = ranks_at(alloc, slots.as_slice(), &places, path)?;
    match standing_out(&ranks) {
        None => Ok(None),
        Some(place) => Ok(slot_at(&places, place)),
    }
}

// The ranks of a profile's children on a path.
fn child_ranks(alloc: Global, ready: &Ready, path: &[u8]) -> Result<Vec<u128>, AllocError>
    ensures { IfOk result (λ ranks. ranks.items ≡ map (λ child. best_rank path.now child.attachments) ready.now.children) }
{
    let children = ready.profile.children.as_slice();
    let mut ranks = Vec::with_capacity(alloc, children.len())?;
    for (place, _) in children.iter().enumerate() {
        ranks.push(section_rank(alloc, ready.section(Some(place)), path)?)?;
    }
    Ok(ranks)
}

/// The index of the child of a profile that attaches to the program of a path (docs/policy.md, "Exec and attachment"): the one whose best attachment
/// on this path ranks higher than that of any other. `None` where no attachment matches, and where two share the best rank. Hats have no
/// attachments.
///
/// # Errors
///
/// Where memory runs out.
pub fn attached_child(
    alloc: Global,
    ready: &Ready,
    path: &[u8],
) -> Result<Option<usize>, AllocError>
    ensures { IfOk result (λ place. place ≡ attached_child path.now ready.now.children) }
{
    Ok(standing_out(&child_ranks(alloc, ready, path)?))
}
