//! Who asks to start a program: by the loaded profile that confines the task, by a full name, or by the profile's slot.

ghost use Rattle.std.specs.Prelude.{◌≡◌, IfSome, List, Option, Some};
ghost use Rattle.std.specs.Option.{option_copied, option_map};
ghost use Rattle.aa_decide.specs.Exec.{entry_asker, named_asker, under};
ghost use Rattle.aa_decide.specs.SeenExec.{IsIn, asker_in, seen_asker, seen_to};
ghost use Rattle.aa_decide_ready.specs.Entries.{Loaded};
ghost use Rattle.aa_decide_ready.specs.Slots.{filled};
ghost use Rattle.aa_profile_data.specs.FullNames.{full_name};

use aa_decide_ready::{Entry, IndexedSlots, entry_at, find_named};
use aa_decide_rules::ExecTo;
use aa_profile_data::{child_place, cut_full_name};

/// Who asks by a loaded profile, as long as it is in force.
#[derive(Clone, Copy)]
pub struct Asker<'a> {
    /// The profile.
    pub entry: &'a Entry,
    /// Its slot.
    pub slot: usize,
    /// The index of the child or hat that confines the task; `None` where that is the profile itself.
    pub child: Option<usize>,
}

/// Who asks, by slot.
#[derive(Clone, Copy, Debug, PartialEq, Eq)]
pub enum Who {
    /// A task that no profile confines.
    Unconfined,
    /// A task that is confined by a loaded profile, as long as that is in force.
    Entry {
        /// The profile's slot.
        slot: usize,
        /// The index of the child or hat that confines it; `None` where that is the profile itself.
        child: Option<usize>,
    },
}

// The asker with the loaded profile in its slot, if the slot is filled.
pub fn asker_in(slots: &[Option<Entry>], who: Who) -> Option<Asker<'_>>
    ensures asker { option_map seen_asker result ≡ asker_in slots.now who }
    ensures filled { IfSome result (IsIn slots.now) }
{
    match who {
        Who::Unconfined => None,
        Who::Entry { slot, child } => {
            let entry = entry_at(slots, slot)?;
            Some(Asker { entry, slot, child })
        }
    }
}

// The profile in a slot, or its child or hat of this name.
pub fn named_in<'a>(slot: usize, entry: &'a Entry, child: Option<&[u8]>) -> Option<Asker<'a>>
    ensures named { option_map seen_asker result ≡ entry_asker (option_copied child.entry) entry.now }
    ensures entry { IfSome result (λ named. named.entry.now ≡ entry.now) }
    ensures slot { IfSome result (λ named. named.slot ≡ slot) }
{
    let child = match child {
        None => None,
        Some(name) => Some(child_place(name, entry.profile().children.as_slice())?),
    };
    Some(Asker { entry, slot, child })
}

/// The profile, child or hat of a full name, in whatever state it is, and its slot; `None` where there is none. It takes no memory.
pub fn find_loaded<'a>(slots: &IndexedSlots<'a>, name: &[u8]) -> Option<Asker<'a>>
    ensures named { option_map seen_asker result ≡ named_asker (filled slots.now) (full_name name.now) }
    ensures there { IfSome result (IsIn slots.now) }
{
    let (profile, child) = cut_full_name(name);
    let (slot, entry) = find_named(slots, profile)?;
    named_in(slot, entry, child)
}

// The program runs under the profile, child or hat that asks.
pub fn under<'a>(asker: Asker<'_>) -> ExecTo<'a>
    ensures { (slots : List (Option Loaded)) → IsIn slots asker.entry → seen_to slots result ≡ Some (under (seen_asker asker.entry)) }
{
    ExecTo::Profile {
        slot: asker.slot,
        child: asker.child,
    }
}
