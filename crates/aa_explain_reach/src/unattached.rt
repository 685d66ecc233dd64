//! Profiles that no path is attached to.

ghost use Rattle.std.specs.Prelude.{◌≡◌, ◌++◌, IfOk, IfSome, None, OnOk};
ghost use Rattle.aa_decide_ready.specs.Slots.{filled};
ghost use Rattle.aa_explain_reach.specs.Patterns.{start_patterns};
ghost use Rattle.aa_explain_reach.specs.Unattached.{AreUnattached};
ghost use Rattle.aa_explain_reach.specs.code.LedTo.{has_attachments, is_led_to, is_not_led_to, not_led_to_at, not_led_to_from};
ghost use Rattle.aa_glob_paths.specs.TooMany.{AreMoreTextsThan};

use crate::start::Start;
use crate::starts::{has_start, starts_of};
use aa_decide::{Entry, ExecTo, IndexedSlots};
use aa_decide_rules::which_rank_stands_out;
use std::alloc::{AllocError, Global};

// Whether a profile is in force and has attachments.
fn has_attachments(entry: &Entry) -> bool
    ensures { result ≡ has_attachments entry.now }
{
    entry.state().is_in_force() && !entry.profile().attachments.as_slice().is_empty()
}

// Whether one of some starts leads to the profile in a slot, and not to a child or hat of it.
fn is_led_to(starts: &[Start<'_>], slot: usize) -> bool
    ensures { result ≡ is_led_to starts.now slot }
{
    has_start(starts, ExecTo::Profile { slot, child: None })
}

// Whether a profile in a slot has attachments, but none of some starts leads to it.
fn is_not_led_to(starts: &[Start<'_>], slot: usize, entry: &Entry) -> bool
    ensures { result ≡ is_not_led_to starts.now slot entry.now }
{
    has_attachments(entry) && !is_led_to(starts, slot)
}

// Appends a slot to others, if it holds such a profile.
fn push_not_led_to(
    starts: &[Start<'_>],
    slot: usize,
    held: &Option<Entry>,
    places: &mut Vec<usize>,
) -> Result<(), AllocError>
    ensures { OnOk result (places.new.items ≡ places.old.items ++ not_led_to_at starts.now slot held.now) }
{
    match held {
        None => Ok(()),
        Some(entry) => {
            if is_not_led_to(starts, slot, entry) {
                places.push(slot)?;
            }
            Ok(())
        }
    }
}

// The slots of all such profiles.
fn all_not_led_to(
    alloc: Global,
    starts: &[Start<'_>],
    slots: &[Option<Entry>],
) -> Result<Vec<usize>, AllocError>
    ensures { IfOk result (λ places. places.items ≡ not_led_to_from starts.now 0 slots.now) }
{
    let mut places = Vec::new(alloc);
    let mut slot = 0;
    let mut rest = slots;
    while let [held, behind @ ..] = rest {
        push_not_led_to(starts, slot, held, &mut places)?;
        slot += 1;
        rest = behind;
    }
    Ok(places)
}

/// The slots of all profiles in force that have attachments, but to which no path at all is attached, of all absolute
/// paths of any bytes, as far as the kernel may ask about them, in rising order: of each path that one of these
/// attachments matches another profile's fits better, or as well, which attaches it to neither. So a program comes to
/// run under such a profile only where a rule names it, or a task takes it by its name. To each other profile in force
/// that has attachments some path is attached.
///
/// It is known from the starts by no one in particular (`starts_of`), each of which goes to the profile that its path
/// is attached to. None where these are too many to be told, by `limit`.
///
/// It takes the time and memory of `starts_of`.
///
/// # Errors
///
/// Where memory runs out, and where there are more than 4,294,967,295 patterns or states.
pub fn unattached_profiles(
    alloc: Global,
    slots: &IndexedSlots<'_>,
    limit: usize,
) -> Result<Option<Vec<usize>>, AllocError>
    ensures told { IfOk result (λ found. IfSome found (λ places. AreUnattached slots.now places.items)) }
    ensures full { IfOk result (λ found. found ≡ None → AreMoreTextsThan (start_patterns (filled slots.now) None) limit) }
{
    which_rank_stands_out();
    match starts_of(alloc, slots, None, limit)? {
        None => Ok(None),
        Some(starts) => Ok(Some(all_not_led_to(alloc, &starts, slots.as_slice())?)),
    }
}
