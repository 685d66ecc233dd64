//! Stacks: programs that run under several profiles at once.

ghost use Rattle.std.specs.Prelude.{◌≡◌, IfOk, List, Option, Some, is_some, option_and_then};
ghost use Rattle.std.specs.Option.{option_map};
ghost use Rattle.aa_decide.specs.Exec.{Base, Stacked, are_in_force, asking_base, base_of, by_full_name, fallback_base, named_stack};
ghost use Rattle.aa_decide.specs.Exec.{profile_base, to_stack};
ghost use Rattle.aa_decide.specs.SeenExec.{IsBase, IsDestination, IsIn, seen_asker};
ghost use Rattle.aa_decide.specs.code.SeenExec.{IsBaseOf};
ghost use Rattle.aa_decide_ready.specs.Entries.{Loaded};
ghost use Rattle.aa_decide_ready.specs.Slots.{filled};
ghost use Rattle.aa_profile_data.specs.ExecWords.{row};
ghost use Rattle.aa_profile_data.specs.SeenStacks.{seen_stack};
ghost use Rattle.aa_profile_data.specs.Stacks.{parts_of};

use crate::asker::Asker;
use crate::attachment::attach;
use crate::slots::by_full_name;
use aa_decide_ready::IndexedSlots;
use aa_decide_rules::{ExecTo, StackBase};
use aa_profile_data::{Destination, ExecWord, Stack, Transition, first_member, stack_of};
use std::alloc::{AllocError, Global};

// Whether a full name is that of a profile, child or hat in force.
fn is_in_force(slots: &IndexedSlots<'_>, name: &[u8]) -> bool
    ensures { result ≡ is_some (by_full_name name.now (filled slots.now)) }
{
    by_full_name(slots, name).is_some()
}

// Whether each of the full names in a text, with `//&` between them, is that of a profile, child or hat in force.
fn are_in_force(slots: &IndexedSlots<'_>, members: &[u8]) -> bool
    ensures { result ≡ are_in_force (parts_of members.now) (filled slots.now) }
{
    let mut rest = members;
    loop {
        let (name, more) = first_member(rest);
        if !is_in_force(slots, name) {
            return false;
        }
        let Some(more) = more else {
            return true;
        };
        rest = more;
    }
}

// The base of a stack where no profile attaches to the path, for a word that leads to a profile: what its fallback leads to.
fn fallback_base(asker: Asker<'_>, fallback: Option<Destination>) -> Option<StackBase>
    ensures { IsBaseOf asker.entry result (option_and_then (fallback_base (seen_asker asker.entry)) fallback) }
{
    match fallback {
        Some(Destination::Inherit) => Some(StackBase::Profile {
            slot: asker.slot,
            child: asker.child,
        }),
        Some(Destination::Unconfined) => Some(StackBase::Unconfined),
        Some(Destination::Profile) => None,
        Some(Destination::Child) => None,
        None => None,
    }
}

// The base of a stack for a word that leads to a profile: the profile that attaches to the path, or else what the fallback leads to.
fn profile_base(
    alloc: Global,
    slots: &IndexedSlots<'_>,
    asker: Asker<'_>,
    path: &[u8],
    fallback: Option<Destination>,
) -> Result<Option<StackBase>, AllocError>
    requires { IsIn slots.now asker }
    ensures { IfOk result (λ base.
        IsBase slots.now base (profile_base path.now (filled slots.now) (seen_asker asker.entry) fallback)) }
{
    match attach(alloc, slots, path)? {
        None => Ok(fallback_base(asker, fallback)),
        Some(slot) => Ok(Some(StackBase::Profile { slot, child: None })),
    }
}

// The base of a stack for a word that leads to a child: the profile that asks; none where a child or a hat asks.
fn asking_base(asker: Asker<'_>) -> Option<StackBase>
    ensures { IsBaseOf asker.entry result (asking_base (seen_asker asker.entry)) }
{
    if asker.child.is_some() {
        return None;
    }
    Some(StackBase::Profile {
        slot: asker.slot,
        child: None,
    })
}

// The base of a stack for a word, if there is one.
fn base_of(
    alloc: Global,
    slots: &IndexedSlots<'_>,
    asker: Asker<'_>,
    path: &[u8],
    word: ExecWord,
) -> Result<Option<StackBase>, AllocError>
    requires { IsIn slots.now asker }
    ensures { IfOk result (λ base.
        IsBase slots.now base
        (base_of path.now (filled slots.now) (seen_asker asker.entry) (row word).destination (row word).fallback)) }
{
    match word.destination() {
        Destination::Profile => profile_base(alloc, slots, asker, path, word.fallback()),
        Destination::Child => Ok(asking_base(asker)),
        Destination::Inherit => Ok(None),
        Destination::Unconfined => Ok(None),
    }
}

// Where a stack on a base leads whose members are in force: `None` where there is no base.
fn stacked_on<'a>(base: Option<StackBase>, members: &'a [u8]) -> Option<ExecTo<'a>>
    ensures { (slots : List (Option Loaded)) (there : Option Base)
        → IsBase slots base there
        → IsDestination slots result (option_map (λ base. Stacked (Some base) (parts_of members.now)) there) }
{
    let base = base?;
    Some(ExecTo::Stack {
        base: Some(base),
        members,
    })
}

// Where a stack leads for a word: `None` where some member isn't in force, and where it needs a base and has none.
pub fn to_stack<'a>(
    alloc: Global,
    slots: &IndexedSlots<'_>,
    asker: Asker<'_>,
    path: &[u8],
    word: ExecWord,
    stack: Stack<'a>,
) -> Result<Option<ExecTo<'a>>, AllocError>
    requires { IsIn slots.now asker }
    ensures { IfOk result (λ to.
        IsDestination slots.now to
        (to_stack path.now (filled slots.now) (seen_asker asker.entry) word (seen_stack stack.entry))) }
{
    if !are_in_force(slots, stack.members) {
        return Ok(None);
    }
    if !stack.on_base {
        return Ok(Some(ExecTo::Stack {
            base: None,
            members: stack.members,
        }));
    }
    let base = base_of(alloc, slots, asker, path, word)?;
    Ok(stacked_on(base, stack.members))
}

// The stack that a transition names, or `None`.
pub fn named_stack<'a>(transition: &'a Transition) -> Option<Stack<'a>>
    ensures { option_map seen_stack result ≡ named_stack transition.now }
{
    match &transition.target {
        None => None,
        Some(text) => stack_of(text.as_slice()),
    }
}
