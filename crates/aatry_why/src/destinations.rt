//! How destinations of starts are printed.

ghost use Rattle.std.specs.Prelude.{◌≡◌, IfOk, Some, option_and_then};
ghost use Rattle.std.specs.Option.{option_copied, option_map};
ghost use Rattle.aa_decide.specs.SeenExec.{seen_base, seen_stacked, seen_to};
ghost use Rattle.aa_explain.specs.Leads.{seen_destination};
ghost use Rattle.aa_profile_data.specs.Stacks.{parts_of};
ghost use Rattle.aa_set_answers.specs.Answers.{base_name};
ghost use Rattle.aa_set_answers.specs.ProfileNames.{full_name_at};
ghost use Rattle.aatry_why.specs.Transitions.{destination_base, destination_text, name_text, stack_base, stacked_text, started_text};

use aa_bytes::push_text;
use aa_decide::{ExecTo, IndexedSlots, StackBase, entry_at};
use aa_profile_data::Profile;
use aa_set_answers::{full_name, stack_name};
use aatry_report::{Form, Teller};
use std::alloc::{AllocError, Global};

// A name, quoted as in lines, or as it is.
fn written(teller: Teller, name: Vec<u8>) -> Result<Vec<u8>, AllocError>
    ensures { IfOk result (λ text. text.items ≡ name_text teller.form name.items) }
{
    match teller.form {
        Form::Lines => {
            let mut text = Vec::new(teller.alloc);
            push_text(&mut text, &name)?;
            Ok(text)
        }
        Form::Records => Ok(name),
    }
}

// The full name of a profile, or of its child or hat at an index, quoted as in lines, or as it is.
fn name_text(teller: Teller, profile: &Profile, child: Option<usize>) -> Result<Vec<u8>, AllocError>
    ensures { IfOk result (λ text. text.items ≡ name_text teller.form (full_name_at profile.now child)) }
{
    written(teller, full_name(teller.alloc, profile, child)?)
}

// The name of the base of a stack; `None` where its slot is empty.
fn base_name(
    alloc: Global,
    slots: &IndexedSlots<'_>,
    base: StackBase,
) -> Result<Option<Vec<u8>>, AllocError>
    ensures { IfOk result (λ name. option_map (λ name. name.items) name ≡ option_map base_name (seen_base slots.now base)) }
{
    match base {
        StackBase::Unconfined => Ok(Some(Vec::from_slice(alloc, b"unconfined")?)),
        StackBase::Profile { slot, child } => match entry_at(slots.as_slice(), slot) {
            None => Ok(None),
            Some(entry) => Ok(Some(full_name(alloc, entry.profile(), child)?)),
        },
    }
}

// The name of a stack of these members, on a base of this name, if it has one, quoted as in lines, or as it is.
fn stacked_text(teller: Teller, base: Option<&[u8]>, members: &[u8]) -> Result<Vec<u8>, AllocError>
    ensures { IfOk result (λ text. text.items ≡ stacked_text teller.form (option_copied base.entry) (parts_of members.now)) }
{
    written(teller, stack_name(teller.alloc, base, members)?)
}

// The name of a stack that is on a base; `None` where the slot of that is empty.
fn based_text(
    teller: Teller,
    slots: &IndexedSlots<'_>,
    base: StackBase,
    members: &[u8],
) -> Result<Option<Vec<u8>>, AllocError>
    ensures { IfOk result (λ text.
        option_map (λ text. text.items) text ≡ option_map (started_text teller.form) (seen_stacked slots.now (parts_of members.now) (Some base))) }
{
    match base_name(teller.alloc, slots, base)? {
        None => Ok(None),
        Some(name) => Ok(Some(stacked_text(teller, Some(name.as_slice()), members)?)),
    }
}

// Under what a program runs that is started; `None` where the slot is empty.
fn started_text(
    teller: Teller,
    slots: &IndexedSlots<'_>,
    to: ExecTo<'_>,
) -> Result<Option<Vec<u8>>, AllocError>
    ensures { IfOk result (λ text. option_map (λ text. text.items) text ≡ option_map (started_text teller.form) (seen_to slots.now to.entry)) }
{
    match to {
        ExecTo::Profile { slot, child } => match entry_at(slots.as_slice(), slot) {
            None => Ok(None),
            Some(entry) => Ok(Some(name_text(teller, entry.profile(), child)?)),
        },
        ExecTo::Unconfined => Ok(Some(Vec::from_slice(teller.alloc, b"unconfined")?)),
        ExecTo::Stack { base, members } => match base {
            None => Ok(Some(stacked_text(teller, None, members)?)),
            Some(base) => based_text(teller, slots, base, members),
        },
        ExecTo::Null => Ok(Some(Vec::new(teller.alloc))),
        ExecTo::Nowhere => Ok(Some(Vec::new(teller.alloc))),
    }
}

/// The destination of a transition as it is printed, if it leads somewhere: the full name, quoted as in lines or as it is, or the word where that is
/// no profile.
///
/// # Errors
///
/// Where memory runs out.
pub fn destination_text(
    teller: Teller,
    slots: &IndexedSlots<'_>,
    to: Option<ExecTo<'_>>,
) -> Result<Option<Vec<u8>>, AllocError>
    ensures { IfOk result (λ text. option_map (λ text. text.items) text ≡ destination_text teller.form (seen_destination slots.now to.entry)) }
{
    match to {
        None => Ok(None),
        Some(to) => started_text(teller, slots, to),
    }
}

// The name of the base, if a program runs under a stack that is on one; `None` where the slot of that is empty.
fn stack_base(
    alloc: Global,
    slots: &IndexedSlots<'_>,
    to: ExecTo<'_>,
) -> Result<Option<Vec<u8>>, AllocError>
    ensures { IfOk result (λ name. option_map (λ name. name.items) name ≡ option_and_then stack_base (seen_to slots.now to.entry)) }
{
    match to {
        ExecTo::Stack { base, .. } => match base {
            None => Ok(None),
            Some(base) => base_name(alloc, slots, base),
        },
        ExecTo::Profile { .. } => Ok(None),
        ExecTo::Unconfined => Ok(None),
        ExecTo::Null => Ok(None),
        ExecTo::Nowhere => Ok(None),
    }
}

/// The name of the base of the stack to which a transition leads, if it leads to one that is on a base: the full name of a profile, child or hat, or
/// `unconfined`.
///
/// # Errors
///
/// Where memory runs out.
pub fn destination_base(
    alloc: Global,
    slots: &IndexedSlots<'_>,
    to: Option<ExecTo<'_>>,
) -> Result<Option<Vec<u8>>, AllocError>
    ensures { IfOk result (λ name. option_map (λ name. name.items) name ≡ destination_base (seen_destination slots.now to.entry)) }
{
    match to {
        None => Ok(None),
        Some(to) => stack_base(alloc, slots, to),
    }
}
