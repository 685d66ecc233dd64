//! The full names of profiles, children and hats.

ghost use Rattle.std.specs.Prelude.{◌≡◌, ◌++◌, IfOk, OnOk};
ghost use Rattle.std.specs.Option.{option_copied};
ghost use Rattle.aa_set_answers.specs.ProfileNames.{behind_profile, full_name_at};

use aa_profile_data::{Child, Profile};
use std::alloc::{AllocError, Global};

// Appends `//` and the name of a child or a hat, if there is one, to its profile's name.
fn push_child(text: &mut Vec<u8>, child: Option<&Child>) -> Result<(), AllocError>
    ensures { OnOk result (text.new.items ≡ text.old.items ++ behind_profile (option_copied child.entry)) }
{
    if let Some(child) = child {
        text.extend_from_slice(b"//")?;
        text.extend_from_slice(child.name.as_slice())?;
    }
    Ok(())
}

/// The full name of a profile, or of its child or hat at an index: the profile's name, followed by `//` and the child's or hat's own
/// (docs/commands.md, "Full names"). Where there is no child or hat at the index, it is the profile's.
///
/// # Errors
///
/// Where memory runs out.
pub fn full_name(
    alloc: Global,
    profile: &Profile,
    child: Option<usize>,
) -> Result<Vec<u8>, AllocError>
    ensures { IfOk result (λ name. name.items ≡ full_name_at profile.now child) }
{
    let mut name = Vec::from_slice(alloc, profile.name.as_slice())?;
    if let Some(place) = child {
        push_child(&mut name, profile.children.as_slice().get(place))?;
    }
    Ok(name)
}
