//! The lines that list loaded profiles.

ghost use Rattle.std.specs.Prelude.{◌≡◌, ◌≤◌, ◌^◌, [], ◌∷◌, ◌++◌, IfOk, OnOk, codes, flat_map};
ghost use Rattle.std.specs.Fmt.{decimal};
ghost use Rattle.aa_decide_ready.specs.Slots.{filled};
ghost use Rattle.aa_bytes.specs.Bytes.{line_feed};
ghost use Rattle.aa_set_answers.specs.Children.{lines_of_children};
ghost use Rattle.aa_set_answers.specs.List.{count, entry_lines, list_lines, listed_child};
ghost use Rattle.aa_set_answers.specs.States.{written_state};

use crate::states::push_state;
use aa_decide_ready::Entry;
use aa_profile_data::Child;
use itoa::Buffer;
use std::alloc::{AllocError, Global};

// How many profiles, children and hats a slot holds.
fn count_in(slot: &Option<Entry>) -> u128
    ensures count { result ≡ count (filled (slot.now ∷ [])) }
    ensures most { result ≤ 2 ^ 64 }
{
    match slot {
        None => 0,
        Some(entry) => entry.profile().children.as_slice().len() as u128 + 1,
    }
}

// How many profiles, children and hats slots hold.
fn count(slots: &[Option<Entry>]) -> u128
    ensures { result ≡ count (filled slots.now) }
{
    let mut count = 0;
    let mut rest = slots;
    while let [slot, behind @ ..] = rest {
        count += count_in(slot);
        rest = behind;
    }
    count
}

// Appends the line of a profile, or of its child or hat at an index, to a text.
fn push_line(
    text: &mut Vec<u8>,
    alloc: Global,
    entry: &Entry,
    child: Option<usize>,
) -> Result<(), AllocError>
    ensures { OnOk result (text.new.items ≡ text.old.items ++ written_state entry.now child ++ line_feed ∷ []) }
{
    push_state(text, alloc, entry, child)?;
    text.push(b'\n')?;
    Ok(())
}

// Appends the lines of these children and hats of a profile to a text.
fn push_children(
    text: &mut Vec<u8>,
    alloc: Global,
    entry: &Entry,
    children: &[Child],
) -> Result<(), AllocError>
    ensures { OnOk result (text.new.items ≡ text.old.items ++ lines_of_children (listed_child entry.now) children.now) }
{
    for (place, _) in children.iter().enumerate() {
        push_line(text, alloc, entry, Some(place))?;
    }
    Ok(())
}

// Appends the lines of a profile, and of its children and hats, to a text.
fn push_entry(text: &mut Vec<u8>, alloc: Global, entry: &Entry) -> Result<(), AllocError>
    ensures { OnOk result (text.new.items ≡ text.old.items ++ entry_lines entry.now) }
{
    push_line(text, alloc, entry, None)?;
    push_children(text, alloc, entry, entry.profile().children.as_slice())
}

// Appends the lines of what a slot holds to a text.
fn push_slot(text: &mut Vec<u8>, alloc: Global, slot: &Option<Entry>) -> Result<(), AllocError>
    ensures { OnOk result (text.new.items ≡ text.old.items ++ flat_map entry_lines (filled (slot.now ∷ []))) }
{
    match slot {
        None => Ok(()),
        Some(entry) => push_entry(text, alloc, entry),
    }
}

// Appends the lines of what slots hold to a text.
fn push_slots(text: &mut Vec<u8>, alloc: Global, slots: &[Option<Entry>]) -> Result<(), AllocError>
    ensures { OnOk result (text.new.items ≡ text.old.items ++ flat_map entry_lines (filled slots.now)) }
{
    let mut rest = slots;
    while let [slot, behind @ ..] = rest {
        push_slot(text, alloc, slot)?;
        rest = behind;
    }
    Ok(())
}

// Appends the line with the number of profiles, children and hats to a text.
fn push_count(text: &mut Vec<u8>, count: u128) -> Result<(), AllocError>
    ensures { OnOk result (text.new.items ≡ text.old.items ++ codes "profiles " ++ decimal count ++ line_feed ∷ []) }
{
    let mut digits = Buffer::new();
    text.extend_from_slice(b"profiles ")?;
    text.extend_from_slice(digits.format(count).as_bytes())?;
    text.push(b'\n')?;
    Ok(())
}

/// The lines that list the loaded profiles in the filled slots, in their order (docs/commands.md, "What is loaded"): how many profiles, children and
/// hats there are, followed by a line for each with its full name and its state; children and hats come after their profile in the order of the
/// file. Each line ends with a line feed.
///
/// # Errors
///
/// Where memory runs out.
pub fn list_lines(alloc: Global, slots: &[Option<Entry>]) -> Result<Vec<u8>, AllocError>
    ensures { IfOk result (λ lines. lines.items ≡ list_lines (filled slots.now)) }
{
    let mut text = Vec::new(alloc);
    push_count(&mut text, count(slots))?;
    push_slots(&mut text, alloc, slots)?;
    Ok(text)
}
