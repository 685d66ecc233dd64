//! The modes in which profiles come into force.

ghost use Rattle.std.specs.Prelude.{◌≡◌, IfOk};
ghost use Rattle.aa_set_manager.specs.Changes.{forced, in_force, mode_of, modes_of};

use aa_bytes::Sequence;
use aa_decide_ready::{Entry, Ready, State};
use aa_profile_data::{Mode, Profile};
use std::alloc::{AllocError, Global};

/// The mode to which profiles are set when they are loaded, if one is forced.
pub fn forced(force_complain: bool) -> Option<Mode>
    ensures { result ≡ forced force_complain }
{
    if force_complain {
        Some(Mode::Complain)
    } else {
        None
    }
}

// The mode that is set, if one is, and else that of the profile's own flags.
fn mode_of(set: Option<Mode>, own: Mode) -> Mode
    ensures { result ≡ mode_of set own }
{
    match set {
        None => own,
        Some(mode) => mode,
    }
}

/// The modes of a profile and of each of its children and hats.
///
/// # Errors
///
/// Where memory runs out.
pub fn modes_of(
    alloc: Global,
    set: Option<Mode>,
    profile: &Profile,
) -> Result<Vec<Mode>, AllocError>
    ensures { IfOk result (λ modes. modes.items ≡ modes_of set profile.now) }
{
    let children = profile.children.as_slice();
    let mut modes = Vec::with_capacity(alloc, children.len().saturating_add(1))?;
    modes.push(mode_of(set, profile.mode))?;
    for child in children {
        modes.push(mode_of(set, child.mode))?;
    }
    Ok(modes)
}

/// A profile in force, with its children and hats: in the mode that is set, or else each in that of its own flags.
///
/// # Errors
///
/// Where memory runs out.
pub fn in_force(alloc: Global, set: Option<Mode>, ready: Ready) -> Result<Entry, AllocError>
    ensures { IfOk result (λ entry. entry ≡ in_force set ready) }
{
    let modes = modes_of(alloc, set, &ready.profile)?;
    Ok(Entry::new(ready, State::Modes(Sequence::from_vec(modes))))
}
