//! Places compared, by name.

ghost use Rattle.std.specs.Prelude.{◌≡◌};
ghost use Rattle.std.specs.Option.{option_copied, option_map};
ghost use Rattle.aa_explain_start_changes.specs.code.Same.{same_base, same_child, same_lead, same_leads, same_members, same_name, same_pair, same_place, same_stand};
ghost use Rattle.aa_explain_start_changes.specs.code.SeenPlaces.{seen_base_name, seen_lead, seen_name, seen_place};
ghost use Rattle.aa_explain_start_changes.specs.code.Telling.{pair_told};
ghost use Rattle.aa_explain_start_changes.specs.Starters.{lead_at, seen_starters};
ghost use Rattle.aa_profile_data.specs.Stacks.{parts_of};

use crate::changes::Pair;
use crate::places::{Base, Name, Place, place_at};
use crate::starter::{Led, Starters};
use aa_decide::Entry;

/// Where a program runs, and whether its environment is scrubbed.
#[derive(Clone, Copy)]
pub struct Lead<'a> {
    /// Where it runs.
    pub place: Place<'a>,
    /// Whether it is.
    pub scrub: bool,
}

// Whether two children or hats have one name, or neither is one.
fn same_child(one: Option<&[u8]>, other: Option<&[u8]>) -> bool
    ensures { result ≡ same_child (option_copied one.entry) (option_copied other.entry) }
{
    match (one, other) {
        (None, None) => true,
        (Some(name), Some(own)) => name == own,
        _ => false,
    }
}

// Whether two full names are one.
fn same_name(one: Name<'_>, other: Name<'_>) -> bool
    ensures { result ≡ same_name (seen_name one.entry) (seen_name other.entry) }
{
    one.profile == other.profile && same_child(one.child, other.child)
}

// Whether two stacks are on the same.
fn same_base(one: Base<'_>, other: Base<'_>) -> bool
    ensures { result ≡ same_base (seen_base_name one.entry) (seen_base_name other.entry) }
{
    match (one, other) {
        (Base::Named(name), Base::Named(own)) => same_name(name, own),
        (Base::Unconfined, Base::Unconfined) => true,
        _ => false,
    }
}

// Whether two stacks are on the same, or neither is on anything.
fn same_stand(one: Option<Base<'_>>, other: Option<Base<'_>>) -> bool
    ensures { result ≡ same_stand (option_map seen_base_name one.entry) (option_map seen_base_name other.entry) }
{
    match (one, other) {
        (None, None) => true,
        (Some(base), Some(own)) => same_base(base, own),
        _ => false,
    }
}

// Whether two texts name the same members of a stack.
fn same_members(one: &[u8], other: &[u8]) -> bool
    ensures { result ≡ same_members (parts_of one.now) (parts_of other.now) }
{
    one == other
}

// Whether two are one place.
fn same_place(one: Place<'_>, other: Place<'_>) -> bool
    ensures { result ≡ same_place (seen_place one.entry) (seen_place other.entry) }
{
    match (one, other) {
        (Place::Named(name), Place::Named(own)) => same_name(name, own),
        (Place::Unconfined, Place::Unconfined) => true,
        (
            Place::Stack { base, members },
            Place::Stack {
                base: own,
                members: names,
            },
        ) => same_stand(base, own) && same_members(members, names),
        (Place::Null, Place::Null) => true,
        _ => false,
    }
}

// Whether programs run at one place, alike scrubbed.
fn same_lead(one: Lead<'_>, other: Lead<'_>) -> bool
    ensures { result ≡ same_lead (seen_lead one.entry) (seen_lead other.entry) }
{
    same_place(one.place, other.place) && one.scrub == other.scrub
}

// The same, or neither is started.
fn same_leads(one: Option<Lead<'_>>, other: Option<Lead<'_>>) -> bool
    ensures { result ≡ same_leads (option_map seen_lead one.entry) (option_map seen_lead other.entry) }
{
    match (one, other) {
        (None, None) => true,
        (Some(lead), Some(own)) => same_lead(lead, own),
        _ => false,
    }
}

// What is led to, by name.
fn lead_at<'a>(slots: &'a [Option<Entry>], led: Led<'a>) -> Option<Lead<'a>>
    ensures { option_map seen_lead result ≡ lead_at slots.now led.entry }
{
    match place_at(slots, led.to) {
        None => None,
        Some(place) => Some(Lead {
            place,
            scrub: led.scrub,
        }),
    }
}

/// Whether it is led to the same in two policy sets, by name: to one place, alike scrubbed, or nowhere. It takes no
/// memory.
pub fn same_led(
    slots: &[Option<Entry>],
    one: Led<'_>,
    others: &[Option<Entry>],
    other: Led<'_>,
) -> bool
    ensures { result ≡ same_leads (lead_at slots.now one.entry) (lead_at others.now other.entry) }
{
    same_leads(lead_at(slots, one), lead_at(others, other))
}

/// Whether two pairs lead to the same, before and behind a change. It takes no memory.
pub fn same_pair(starters: Starters<'_, '_>, one: Pair<'_>, other: Pair<'_>) -> bool
    ensures { result ≡ same_pair (pair_told (seen_starters starters.entry) one.entry) (pair_told (seen_starters starters.entry) other.entry) }
{
    let old = starters.old.slots.as_slice();
    let new = starters.new.slots.as_slice();
    same_led(old, one.old, old, other.old) && same_led(new, one.new, new, other.new)
}
