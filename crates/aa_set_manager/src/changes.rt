//! The changes that commands make to a policy set, each as the parts that it exchanges.

ghost use Rattle.std.specs.Prelude.{◌≡◌, Ok, Err, IfOk, IfErr, length, true, false};
ghost use Rattle.std.specs.List.{list_all};
ghost use Rattle.aa_decide_ready.specs.Named.{have_distinct_names};
ghost use Rattle.aa_decide_ready.specs.Slots.{filled};
ghost use Rattle.aa_profile_data.specs.Conflicts.{profile_agrees};
ghost use Rattle.aa_profile_data.specs.Profile.{are_distinct};
ghost use Rattle.aa_set_manager.specs.Changes.{are_there, is_disabled, is_loaded, some_are_absent, some_are_disabled};
ghost use Rattle.aa_set_manager.specs.Changes.{with_added, with_disabled, with_mode, with_removed, with_replaced};
ghost use Rattle.aa_set_commands.specs.Refusal.{IsRefusalOf, plain};
ghost use Rattle.aa_set_commands.specs.declared.refusal.RefusalKind.TheVariants.{Memory};
ghost use Rattle.aa_set_parts.specs.Parts.{after};

use crate::loading::{in_state, loading, unloading};
use crate::modes::{forced, modes_of};
use crate::places::{FileChange, found_for};
use aa_bytes::Sequence;
use aa_decide_ready::{State, find_named};
use aa_profile_data::{Mode, Profile};
use aa_set_commands::{Refusal, RefusalKind, plain};
use aa_set_parts::{Exchange, Slots};
use std::alloc::Global;

/// The change that adds the profiles of a file, whose names are their own and whose rules agree, at the end of a policy set: each in force in the
/// modes of its own flags, or in complain mode where that is forced (docs/commands.md, "Changes"). It has a part for each profile. The slots don't
/// change.
///
/// # Errors
///
/// `Exists` where a profile of one of their names is loaded, which is found without allocating, and `Memory` where memory ran out.
pub fn adding(
    alloc: Global,
    slots: &Slots,
    force_complain: bool,
    profiles: Vec<Profile>,
) -> Result<Exchange, Refusal>
    requires own { are_distinct profiles.items ≡ true }
    requires agree { list_all profile_agrees profiles.items ≡ true }
    ensures ok { IfOk result (λ exchange.
        with_added force_complain (filled slots.now) profiles.items ≡ Ok (filled (after slots.now exchange.parts))) }
    ensures parts { IfOk result (λ exchange. length exchange.parts ≡ length profiles.items) }
    ensures refused { IfErr result (IsRefusalOf (with_added force_complain (filled slots.now) profiles.items)) }
    ensures memory { IfErr result (λ refusal. refusal ≡ plain Memory → are_there profiles.items (filled slots.now) ≡ false) }
{
    let found = found_for(alloc, FileChange::Add, &slots.indexed(), &profiles)?;
    Ok(loading(alloc, slots, forced(force_complain), profiles, &found)?)
}

/// The change that replaces profiles by those of a file with their names, or adds them at the end, in the file's order, where there is none: each in
/// force in the modes of its own flags, or in complain mode where that is forced (docs/commands.md, "Changes"). The names of the file's profiles
/// differ, and their rules agree. It has a part for each profile. The slots don't change.
///
/// # Errors
///
/// `Disabled` where the profile of one of their names is disabled, which is found without allocating, and `Memory` where memory ran out.
pub fn replacing(
    alloc: Global,
    slots: &Slots,
    force_complain: bool,
    profiles: Vec<Profile>,
) -> Result<Exchange, Refusal>
    requires own { are_distinct profiles.items ≡ true }
    requires agree { list_all profile_agrees profiles.items ≡ true }
    ensures ok { IfOk result (λ exchange.
        with_replaced force_complain (filled slots.now) profiles.items ≡ Ok (filled (after slots.now exchange.parts))) }
    ensures parts { IfOk result (λ exchange. length exchange.parts ≡ length profiles.items) }
    ensures refused { IfErr result (IsRefusalOf (with_replaced force_complain (filled slots.now) profiles.items)) }
    ensures memory { IfErr result (λ refusal. refusal ≡ plain Memory → some_are_disabled profiles.items (filled slots.now) ≡ false) }
{
    let found = found_for(alloc, FileChange::Replace, &slots.indexed(), &profiles)?;
    Ok(loading(alloc, slots, forced(force_complain), profiles, &found)?)
}

/// The change that removes the profiles of these names, which differ (docs/commands.md, "Changes"). It has a part for each. The slots, in which no
/// two profiles have one name, don't change.
///
/// # Errors
///
/// `Absent` where one of these names isn't loaded, which is found without allocating, and `Memory` where memory ran out.
pub fn removing(alloc: Global, slots: &Slots, profiles: &[Profile]) -> Result<Exchange, Refusal>
    requires own { are_distinct profiles.now ≡ true }
    requires apart { have_distinct_names (filled slots.now) ≡ true }
    ensures ok { IfOk result (λ exchange. with_removed (filled slots.now) profiles.now ≡ Ok (filled (after slots.now exchange.parts))) }
    ensures parts { IfOk result (λ exchange. length exchange.parts ≡ length profiles.now) }
    ensures refused { IfErr result (IsRefusalOf (with_removed (filled slots.now) profiles.now)) }
    ensures memory { IfErr result (λ refusal. refusal ≡ plain Memory → some_are_absent profiles.now (filled slots.now) ≡ false) }
{
    let found = found_for(alloc, FileChange::Remove, &slots.indexed(), profiles)?;
    Ok(unloading(alloc, slots, profiles, &found)?)
}

/// The change that sets the profile of a name, with all its children and hats, to one mode, in force (docs/commands.md, "Changes"). It has one part.
/// The slots don't change.
///
/// # Errors
///
/// `Absent` where no profile has the name, which is found without allocating, and `Memory` where memory ran out.
pub fn switching(alloc: Global, slots: &Slots, mode: Mode, name: &[u8]) -> Result<Exchange, Refusal>
    ensures ok { IfOk result (λ exchange. with_mode mode (filled slots.now) name.now ≡ Ok (filled (after slots.now exchange.parts))) }
    ensures parts { IfOk result (λ exchange. length exchange.parts ≡ 1) }
    ensures refused { IfErr result (IsRefusalOf (with_mode mode (filled slots.now) name.now)) }
    ensures memory { IfErr result (λ refusal. refusal ≡ plain Memory → is_loaded name.now (filled slots.now) ≡ true) }
{
    let Some((slot, entry)) = find_named(&slots.indexed(), name) else {
        return Err(plain(RefusalKind::Absent));
    };
    let modes = modes_of(alloc, Some(mode), entry.profile())?;
    Ok(in_state(alloc, slot, State::Modes(Sequence::from_vec(modes)))?)
}

/// The change that disables the profile of a name, with its children and hats (docs/commands.md, "Changes"). It has one part. The slots don't
/// change.
///
/// # Errors
///
/// `Absent` where no profile has the name, and `Disabled` where it is disabled already, which are found without allocating; and `Memory` where
/// memory ran out.
pub fn disabling(alloc: Global, slots: &Slots, name: &[u8]) -> Result<Exchange, Refusal>
    ensures ok { IfOk result (λ exchange. with_disabled (filled slots.now) name.now ≡ Ok (filled (after slots.now exchange.parts))) }
    ensures parts { IfOk result (λ exchange. length exchange.parts ≡ 1) }
    ensures refused { IfErr result (IsRefusalOf (with_disabled (filled slots.now) name.now)) }
    ensures loaded { IfErr result (λ refusal. refusal ≡ plain Memory → is_loaded name.now (filled slots.now) ≡ true) }
    ensures in_force { IfErr result (λ refusal. refusal ≡ plain Memory → is_disabled name.now (filled slots.now) ≡ false) }
{
    let Some((slot, entry)) = find_named(&slots.indexed(), name) else {
        return Err(plain(RefusalKind::Absent));
    };
    if !entry.state().is_in_force() {
        return Err(plain(RefusalKind::Disabled));
    }
    Ok(in_state(alloc, slot, State::Disabled)?)
}
