//! The parts of which changes are made.

ghost use Rattle.std.specs.Prelude.{◌≡◌, ◌<◌, ◌≤◌, [], ◌∷◌, ◌++◌, length, true, false, IfOk, OnOk, Some, None, is_none};
ghost use Rattle.std.specs.List.{list_all, list_any};
ghost use Rattle.aa_decide_ready.specs.Named.{have_distinct_names};
ghost use Rattle.aa_decide_ready.specs.Slots.{filled};
ghost use Rattle.aa_profile_data.specs.Conflicts.{profile_agrees};
ghost use Rattle.aa_profile_data.specs.Profile.{are_distinct};
ghost use Rattle.aa_set_manager.specs.Changes.{in_force, put_all, without};
ghost use Rattle.aa_set_manager.specs.code.Places.{emptying, filling};
ghost use Rattle.aa_decide_ready.specs.SlotNames.{slots_named};
ghost use Rattle.aa_set_parts.specs.Parts.{after};
ghost use Rattle.aa_set_parts.specs.declared.parts.Content.TheVariants.{InState, Whole};

use crate::modes::in_force;
use crate::places::places;
use aa_decide_ready::{Entry, Ready, State};
use aa_profile_data::{Mode, Profile};
use aa_set_parts::{Content, Exchange, Part, Slots};
use std::alloc::{AllocError, Global};

// A profile as it is loaded: in the mode that is set, or in that of its own flags, and so are its children and hats.
fn loaded(alloc: Global, set: Option<Mode>, profile: Profile) -> Result<Entry, AllocError>
    requires { profile_agrees profile ≡ true }
    ensures { IfOk result (λ entry. entry ≡ in_force set profile) }
{
    in_force(alloc, set, Ready::build(alloc, profile)?)
}

// Appends the part that loads a profile into a slot.
fn push_filling(
    alloc: Global,
    parts: &mut Vec<Part>,
    set: Option<Mode>,
    profile: Profile,
    slot: usize,
) -> Result<(), AllocError>
    requires { profile_agrees profile ≡ true }
    ensures { OnOk result (parts.new.items ≡ parts.old.items ++ filling set (profile ∷ []) (slot ∷ [])) }
{
    let content = Content::Whole(Some(loaded(alloc, set, profile)?));
    parts.push(Part { slot, content })?;
    Ok(())
}

// The parts that load profiles into slots.
fn filling(
    alloc: Global,
    set: Option<Mode>,
    profiles: Vec<Profile>,
    slots: &[usize],
) -> Result<Vec<Part>, AllocError>
    requires each { length slots.now ≡ length profiles.items }
    requires agree { list_all profile_agrees profiles.items ≡ true }
    ensures { IfOk result (λ parts. parts.items ≡ filling set profiles.items slots.now) }
{
    let mut parts = Vec::with_capacity(alloc, slots.len())?;
    let mut at = 0;
    for profile in profiles {
        push_filling(alloc, &mut parts, set, profile, slots[at])?;
        at += 1;
    }
    Ok(parts)
}

/// The change that loads profiles into the slots where their names were found, and the others, in their order, after all: each in the mode that is
/// set, or else in those of its own flags.
///
/// # Errors
///
/// Where memory runs out.
pub fn loading(
    alloc: Global,
    slots: &Slots,
    set: Option<Mode>,
    profiles: Vec<Profile>,
    found: &[Option<usize>],
) -> Result<Exchange, AllocError>
    requires own { are_distinct profiles.items ≡ true }
    requires agree { list_all profile_agrees profiles.items ≡ true }
    requires found { found.now ≡ slots_named profiles.items slots.now }
    ensures put { IfOk result (λ exchange. filled (after slots.now exchange.parts) ≡ put_all set (filled slots.now) profiles.items) }
    ensures parts { IfOk result (λ exchange. length exchange.parts ≡ length profiles.items) }
{
    let mut reach = slots.end();
    let places = places(alloc, &mut reach, found)?;
    let parts = filling(alloc, set, profiles, &places)?;
    Ok(Exchange::of(parts, reach))
}

// Appends the part that empties a slot, if one was found.
fn push_emptying(parts: &mut Vec<Part>, found: Option<usize>) -> Result<(), AllocError>
    ensures { OnOk result (parts.new.items ≡ parts.old.items ++ emptying (found ∷ [])) }
{
    if let Some(slot) = found {
        let content = Content::Whole(None);
        parts.push(Part { slot, content })?;
    }
    Ok(())
}

// The parts that empty the slots that were found.
fn emptying(alloc: Global, found: &[Option<usize>]) -> Result<Vec<Part>, AllocError>
    ensures { IfOk result (λ parts. parts.items ≡ emptying found.now) }
{
    let mut parts = Vec::with_capacity(alloc, found.len())?;
    for slot in found {
        push_emptying(&mut parts, *slot)?;
    }
    Ok(parts)
}

/// The change that empties the slots where the names of profiles were found, all of them.
///
/// # Errors
///
/// Where memory runs out.
pub fn unloading(
    alloc: Global,
    slots: &Slots,
    profiles: &[Profile],
    found: &[Option<usize>],
) -> Result<Exchange, AllocError>
    requires own { are_distinct profiles.now ≡ true }
    requires apart { have_distinct_names (filled slots.now) ≡ true }
    requires found { found.now ≡ slots_named profiles.now slots.now }
    requires all { list_any is_none found.now ≡ false }
    ensures taken { IfOk result (λ exchange. filled (after slots.now exchange.parts) ≡ without profiles.now (filled slots.now)) }
    ensures parts { IfOk result (λ exchange. length exchange.parts ≡ length profiles.now) }
{
    let parts = emptying(alloc, found)?;
    Ok(Exchange::of(parts, slots.end()))
}

/// The change of one slot's state.
///
/// # Errors
///
/// Where memory runs out.
pub fn in_state(alloc: Global, slot: usize, state: State) -> Result<Exchange, AllocError>
    requires { slot < 18446744073709551615 }
    ensures { IfOk result (λ exchange. exchange.parts ≡ record { slot = slot; content = InState state } ∷ []) }
{
    let mut parts = Vec::with_capacity(alloc, 1)?;
    let content = Content::InState(state);
    parts.push(Part { slot, content })?;
    Ok(Exchange::of(parts, slot + 1))
}
