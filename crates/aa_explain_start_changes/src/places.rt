//! Places where programs run, by name.

ghost use Rattle.std.specs.Prelude.{◌≡◌, option_and_then};
ghost use Rattle.std.specs.Option.{option_copied, option_map};
ghost use Rattle.aa_decide.specs.SeenExec.{seen_base, seen_stacked, seen_to};
ghost use Rattle.aa_explain_start_changes.specs.Places.{base_name, child_name, name_at, place_of};
ghost use Rattle.aa_explain_start_changes.specs.code.SeenPlaces.{seen_base_name, seen_name, seen_place};
ghost use Rattle.aa_profile_data.specs.Stacks.{parts_of};

use aa_decide::{Entry, ExecTo, StackBase, entry_at};
use aa_profile_data::{Child, Profile};

/// A full name, lent.
#[derive(Clone, Copy)]
pub struct Name<'a> {
    /// The profile's.
    pub profile: &'a [u8],
    /// That of its child or hat; none where it is the profile itself.
    pub child: Option<&'a [u8]>,
}

/// What a stack is on.
#[derive(Clone, Copy)]
pub enum Base<'a> {
    /// A profile, child or hat.
    Named(Name<'a>),
    /// No profile.
    Unconfined,
}

/// Where a program runs that is started.
#[derive(Clone, Copy)]
pub enum Place<'a> {
    /// Under a profile, child or hat.
    Named(Name<'a>),
    /// Under no profile.
    Unconfined,
    /// Under a stack.
    Stack {
        /// What it is on, if it is on something.
        base: Option<Base<'a>>,
        /// The full names of the others in it, with `//&` between them.
        members: &'a [u8],
    },
    /// It is let through in complain mode alone.
    Null,
}

// The name of the child or hat at a place, if there is one.
fn child_name<'a>(children: &'a [Child], place: usize) -> Option<&'a [u8]>
    ensures { option_copied result ≡ child_name children.now place }
{
    match children.get(place) {
        None => None,
        Some(child) => Some(child.name.as_slice()),
    }
}

// The full name of a profile, or of its child or hat at a place.
fn name_at<'a>(profile: &'a Profile, child: Option<usize>) -> Name<'a>
    ensures { seen_name result ≡ name_at profile.now child }
{
    let child = match child {
        None => None,
        Some(place) => child_name(profile.children.as_slice(), place),
    };
    Name {
        profile: profile.name.as_slice(),
        child,
    }
}

// The name of what a stack is on, if its slot is filled.
fn base_at<'a>(slots: &'a [Option<Entry>], base: StackBase) -> Option<Base<'a>>
    ensures { option_map seen_base_name result ≡ option_map base_name (seen_base slots.now base) }
{
    match base {
        StackBase::Unconfined => Some(Base::Unconfined),
        StackBase::Profile { slot, child } => match entry_at(slots, slot) {
            None => None,
            Some(entry) => Some(Base::Named(name_at(entry.profile(), child))),
        },
    }
}

// The stack of these members on something, if it is on something, and the slot of that is filled.
fn stack_at<'a>(
    slots: &'a [Option<Entry>],
    base: Option<StackBase>,
    members: &'a [u8],
) -> Option<Place<'a>>
    ensures { option_map seen_place result ≡ option_and_then place_of (seen_stacked slots.now (parts_of members.now) base) }
{
    match base {
        None => Some(Place::Stack {
            base: None,
            members,
        }),
        Some(base) => match base_at(slots, base) {
            None => None,
            Some(base) => Some(Place::Stack {
                base: Some(base),
                members,
            }),
        },
    }
}

/// Under what a program runs, by name; none where it isn't started. It takes no memory.
pub fn place_at<'a>(slots: &'a [Option<Entry>], to: ExecTo<'a>) -> Option<Place<'a>>
    ensures { option_map seen_place result ≡ option_and_then place_of (seen_to slots.now to.entry) }
{
    match to {
        ExecTo::Profile { slot, child } => match entry_at(slots, slot) {
            None => None,
            Some(entry) => Some(Place::Named(name_at(entry.profile(), child))),
        },
        ExecTo::Unconfined => Some(Place::Unconfined),
        ExecTo::Stack { base, members } => stack_at(slots, base, members),
        ExecTo::Null => Some(Place::Null),
        ExecTo::Nowhere => None,
    }
}
