//! The files that are left out on which an answer could depend, by the names in the target of a start.

ghost use Rattle.std.specs.Prelude.{◌≡◌, ◌++◌, OnOk, Some};
ghost use Rattle.aa_decide_ready.specs.Slots.{filled};
ghost use Rattle.aa_profile_data.specs.Stacks.{parts_of};
ghost use Rattle.aatry_uncertain.specs.SeenHeads.{all_left_out};
ghost use Rattle.aatry_why.specs.Targets.{name_alone, target_lines, told_of_name, told_of_names};

use aa_bytes::SharedBytes;
use aa_decide::{IndexedSlots, find_loaded};
use aa_profile_data::{Destination, first_member, stack_of};
use aatry_report::Teller;
use aatry_uncertain::{LeftOutHeads, push_unsure_names};
use std::alloc::AllocError;

// Appends the profiles that are left out and have a full name to a text, where nothing of it is loaded.
fn push_name(
    teller: Teller,
    slots: &IndexedSlots<'_>,
    left_out: &LeftOutHeads<'_>,
    name: &[u8],
    out: &mut Vec<u8>,
) -> Result<(), AllocError>
    ensures { OnOk result (out.new.items ≡ out.old.items
        ++ told_of_name teller.form left_out.now.base.now (filled slots.now) (all_left_out left_out.now.heads.items) name.now) }
{
    match find_loaded(slots, name) {
        None => push_unsure_names(teller, left_out, name, out),
        Some(_) => Ok(()),
    }
}

// Appends the profiles that are left out and have one of the full names in a text, with `//&` between them, where nothing of it is loaded.
fn push_members(
    teller: Teller,
    slots: &IndexedSlots<'_>,
    left_out: &LeftOutHeads<'_>,
    members: &[u8],
    out: &mut Vec<u8>,
) -> Result<(), AllocError>
    ensures { OnOk result (out.new.items ≡ out.old.items
        ++ told_of_names teller.form left_out.now.base.now (filled slots.now) (all_left_out left_out.now.heads.items) (parts_of members.now)) }
{
    let mut rest = members;
    loop {
        let (name, more) = first_member(rest);
        push_name(teller, slots, left_out, name, out)?;
        let Some(more) = more else {
            return Ok(());
        };
        rest = more;
    }
}

// Appends the profiles that are left out and have a name that is no stack to a text, by where its word leads.
fn push_alone(
    teller: Teller,
    slots: &IndexedSlots<'_>,
    left_out: &LeftOutHeads<'_>,
    name: &[u8],
    destination: Destination,
    out: &mut Vec<u8>,
) -> Result<(), AllocError>
    ensures { OnOk result (out.new.items ≡ out.old.items
        ++ told_of_names teller.form left_out.now.base.now (filled slots.now) (all_left_out left_out.now.heads.items) (name_alone name.now destination)) }
{
    match destination {
        Destination::Profile => push_name(teller, slots, left_out, name, out),
        Destination::Child | Destination::Inherit | Destination::Unconfined => Ok(()),
    }
}

// Appends the profiles that are left out and have a name, or one of those in a stack, to a text.
fn push_named(
    teller: Teller,
    slots: &IndexedSlots<'_>,
    left_out: &LeftOutHeads<'_>,
    name: &[u8],
    destination: Destination,
    out: &mut Vec<u8>,
) -> Result<(), AllocError>
    ensures { OnOk result (out.new.items ≡ out.old.items ++ target_lines teller.form left_out.now.base.now (filled slots.now)
        (all_left_out left_out.now.heads.items) (Some name.now) destination) }
{
    match stack_of(name) {
        None => push_alone(teller, slots, left_out, name, destination, out),
        Some(stack) => push_members(teller, slots, left_out, stack.members, out),
    }
}

/// Appends the profiles that are left out on which the answer depends where a word leads to a target to a text: those that have one of the full
/// names in the target, where nothing of that name is loaded. A word that leads to a child or a hat names one of the asker's, which is in the same
/// file, except for the members of a stack.
///
/// # Errors
///
/// Where memory runs out. A beginning may have been appended then.
pub fn push_targets(
    teller: Teller,
    slots: &IndexedSlots<'_>,
    left_out: &LeftOutHeads<'_>,
    target: &Option<SharedBytes>,
    destination: Destination,
    out: &mut Vec<u8>,
) -> Result<(), AllocError>
    ensures { OnOk result (out.new.items ≡ out.old.items ++ target_lines teller.form left_out.now.base.now (filled slots.now)
        (all_left_out left_out.now.heads.items) target.now destination) }
{
    match target {
        None => Ok(()),
        Some(name) => push_named(teller, slots, left_out, name.as_slice(), destination, out),
    }
}
