//! Who starts programs where others run.

ghost use Rattle.std.specs.Prelude.{◌≡◌, ◌∷◌, [], IfOk, IfSome, List, None, OnOk, Option, Some};
ghost use Rattle.std.specs.Option.{option_copied, option_map};
ghost use Rattle.aa_decide.specs.Exec.{entry_asker, is_named_in_force, named_in_force};
ghost use Rattle.aa_decide.specs.SeenExec.{IsIn, seen_asker};
ghost use Rattle.aa_decide_ready.specs.Entries.{Loaded};
ghost use Rattle.aa_decide_ready.specs.Slots.{entry_at, filled};
ghost use Rattle.aa_explain_reach.specs.Starters.{alone, member_asker, member_starters, slot_base_starters, slot_starters, stand_starters, starters_at};
ghost use Rattle.aa_explain_reach.specs.code.Going.{Appends, AreIn, seen_starters};
ghost use Rattle.aa_profile_data.specs.Stacks.{parts_of};

use aa_decide::{Asker, Entry, ExecTo, IndexedSlots, StackBase, entry_at};
use aa_profile_data::{child_place, cut_full_name, first_member};
use std::alloc::{AllocError, Global};

// Appends someone who is there.
fn push_asker<'a>(
    asker: Option<Asker<'a>>,
    starters: &mut Vec<Option<Asker<'a>>>,
) -> Result<(), AllocError>
    ensures { OnOk result ((slots : List (Option Loaded)) → IfSome asker.entry (IsIn slots)
        → Appends slots (alone (option_map seen_asker asker.entry)) starters.old.items starters.new.items) }
{
    match asker {
        None => Ok(()),
        Some(asker) => {
            starters.push(Some(asker))?;
            Ok(())
        }
    }
}

// Appends no one in particular.
fn push_no_one<'a>(starters: &mut Vec<Option<Asker<'a>>>) -> Result<(), AllocError>
    ensures { OnOk result ((slots : List (Option Loaded)) → Appends slots (None ∷ []) starters.old.items starters.new.items) }
{
    starters.push(None)?;
    Ok(())
}

// The profile in a slot, or its child or hat at a place.
fn asker_at<'a>(slots: &'a [Option<Entry>], slot: usize, child: Option<usize>) -> Option<Asker<'a>>
    ensures asker { option_map seen_asker result ≡ option_map (λ entry. record { entry = entry; child = child }) (entry_at slots.now slot) }
    ensures there { IfSome result (IsIn slots.now) }
{
    let entry = entry_at(slots, slot)?;
    Some(Asker { entry, slot, child })
}

// Appends the profile in a slot, or its child or hat at a place.
fn push_slot<'a>(
    slots: &IndexedSlots<'a>,
    slot: usize,
    child: Option<usize>,
    starters: &mut Vec<Option<Asker<'a>>>,
) -> Result<(), AllocError>
    ensures { OnOk result (Appends slots.now (slot_starters slots.now slot child) starters.old.items starters.new.items) }
{
    push_asker(asker_at(slots.as_slice(), slot, child), starters)
}

// Appends what a stack is on.
fn push_base<'a>(
    slots: &IndexedSlots<'a>,
    base: StackBase,
    starters: &mut Vec<Option<Asker<'a>>>,
) -> Result<(), AllocError>
    ensures { OnOk result (Appends slots.now (slot_base_starters slots.now base) starters.old.items starters.new.items) }
{
    match base {
        StackBase::Profile { slot, child } => push_slot(slots, slot, child, starters),
        StackBase::Unconfined => push_no_one(starters),
    }
}

// The same, if it is on something.
fn push_stand<'a>(
    slots: &IndexedSlots<'a>,
    base: Option<StackBase>,
    starters: &mut Vec<Option<Asker<'a>>>,
) -> Result<(), AllocError>
    ensures { OnOk result (Appends slots.now (stand_starters slots.now base) starters.old.items starters.new.items) }
{
    match base {
        None => Ok(()),
        Some(base) => push_base(slots, base, starters),
    }
}

// Whether a profile is in force and has this name.
fn is_named_in_force(entry: &Entry, name: &[u8]) -> bool
    ensures { result ≡ is_named_in_force name.now entry.now }
{
    entry.state().is_in_force() && entry.profile().name.as_slice() == name
}

// The profile in force of this name, and its slot, by going over all slots.
fn find_in_force<'a>(slots: &'a [Option<Entry>], name: &[u8]) -> Option<(usize, &'a Entry)>
    ensures found { option_map (λ found. found.1.now) result ≡ named_in_force name.now (filled slots.now) }
    ensures at { IfSome result (λ found. entry_at slots.now found.0 ≡ Some found.1.now) }
{
    for (place, slot) in slots.iter().enumerate() {
        if let Some(entry) = slot {
            if is_named_in_force(entry, name) {
                return Some((place, entry));
            }
        }
    }
    None
}

// The profile in a slot, or the child or hat of it that is named.
fn named_in<'a>(slot: usize, entry: &'a Entry, child: Option<&[u8]>) -> Option<Asker<'a>>
    ensures named { option_map seen_asker result ≡ entry_asker (option_copied child.entry) entry.now }
    ensures entry { IfSome result (λ named. named.entry.now ≡ entry.now) }
    ensures slot { IfSome result (λ named. named.slot ≡ slot) }
{
    let child = match child {
        None => None,
        Some(name) => Some(child_place(name, entry.profile().children.as_slice())?),
    };
    Some(Asker { entry, slot, child })
}

// Who has a full name, of those in force.
fn member_asker<'a>(slots: &'a [Option<Entry>], name: &[u8]) -> Option<Asker<'a>>
    ensures asker { option_map seen_asker result ≡ member_asker (filled slots.now) name.now }
    ensures there { IfSome result (IsIn slots.now) }
{
    let (profile, child) = cut_full_name(name);
    let (slot, entry) = find_in_force(slots, profile)?;
    named_in(slot, entry, child)
}

// Appends who has a full name, of those in force.
fn push_member<'a>(
    slots: &IndexedSlots<'a>,
    name: &[u8],
    starters: &mut Vec<Option<Asker<'a>>>,
) -> Result<(), AllocError>
    ensures { OnOk result (Appends slots.now (alone (member_asker (filled slots.now) name.now)) starters.old.items starters.new.items) }
{
    push_asker(member_asker(slots.as_slice(), name), starters)
}

// Appends who has each of the full names in a text, with `//&` between them.
fn push_members<'a>(
    slots: &IndexedSlots<'a>,
    members: &[u8],
    starters: &mut Vec<Option<Asker<'a>>>,
) -> Result<(), AllocError>
    ensures { OnOk result (Appends slots.now (member_starters (filled slots.now) (parts_of members.now)) starters.old.items starters.new.items) }
{
    let mut rest = members;
    loop {
        let (name, more) = first_member(rest);
        push_member(slots, name, starters)?;
        let Some(more) = more else {
            return Ok(());
        };
        rest = more;
    }
}

// Appends those who start programs where one runs.
fn push_starters<'a>(
    slots: &IndexedSlots<'a>,
    to: ExecTo<'_>,
    starters: &mut Vec<Option<Asker<'a>>>,
) -> Result<(), AllocError>
    ensures { OnOk result (Appends slots.now (starters_at slots.now to.entry) starters.old.items starters.new.items) }
{
    match to {
        ExecTo::Profile { slot, child } => push_slot(slots, slot, child, starters),
        ExecTo::Unconfined => push_no_one(starters),
        ExecTo::Stack { base, members } => {
            push_stand(slots, base, starters)?;
            push_members(slots, members, starters)
        }
        ExecTo::Null => Ok(()),
        ExecTo::Nowhere => Ok(()),
    }
}

/// Those who start programs where one runs: the profile, child or hat that it runs under; no one in particular, where
/// it runs under no profile; under a stack each in it, by itself. From what is let through in complain mode alone
/// nothing is gone on.
///
/// # Errors
///
/// Where memory runs out.
pub fn starters_at<'a>(
    alloc: Global,
    slots: &IndexedSlots<'a>,
    to: ExecTo<'_>,
) -> Result<Vec<Option<Asker<'a>>>, AllocError>
    ensures starters { IfOk result (λ found. seen_starters found.items ≡ starters_at slots.now to.entry) }
    ensures there { IfOk result (λ found. AreIn slots.now found.items) }
{
    let mut starters = Vec::new(alloc);
    push_starters(slots, to, &mut starters)?;
    Ok(starters)
}
