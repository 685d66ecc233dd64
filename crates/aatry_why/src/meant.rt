//! The loaded name that may have been meant, where nothing of a name is loaded.

ghost use Rattle.std.specs.Prelude.{◌≡◌, ◌++◌, IfOk, OnOk, map};
ghost use Rattle.aatry_words.specs.Paths.{near_path};
ghost use Rattle.aatry_policy.specs.SeenProfiles.{seen_part};
ghost use Rattle.aatry_why.specs.Meant.{full_names, meant_name, names_of};

use aa_bytes::Sequence;
use aa_set_commands::RefusalKind;
use aa_set_manager::Manager;
use aatry_policy::{Part, parts_of};
use aatry_words::near_path;
use std::alloc::{AllocError, Global};

// Appends the full names of parts to `names`, none of them copied.
fn push_names<'p>(parts: &'p [Part<'_>], names: &mut Vec<&'p [u8]>) -> Result<(), AllocError>
    ensures { OnOk result (map (λ name. name.now) names.new.items
        ≡ map (λ name. name.now) names.old.items ++ names_of (map seen_part parts.now)) }
{
    let mut rest = parts;
    while let [part, behind @ ..] = rest {
        names.push(part.name.as_slice())?;
        rest = behind;
    }
    Ok(())
}

// The name of one of some parts that is near a word, if one is.
fn near_part(
    alloc: Global,
    parts: &[Part<'_>],
    who: &[u8],
) -> Result<Option<Sequence<u8>>, AllocError>
    ensures { IfOk result (λ name. name ≡ near_path who.now (names_of (map seen_part parts.now))) }
{
    let mut names = Vec::new(alloc);
    push_names(parts, &mut names)?;
    match near_path(alloc, who, &names)? {
        Some(name) => Ok(Some(Sequence::from_slice(alloc, name)?)),
        None => Ok(None),
    }
}

// The loaded name that is near the asker's name, if one is.
fn near_name(
    alloc: Global,
    manager: &Manager,
    who: &[u8],
) -> Result<Option<Sequence<u8>>, AllocError>
    ensures { IfOk result (λ name. name ≡ near_path who.now (full_names manager.now.machine.now)) }
{
    let set = manager.policy_set();
    let parts = parts_of(alloc, &set, &[])?;
    near_part(alloc, &parts, who)
}

/// The loaded name that may have been meant by the asker's name, where a question is refused since nothing of the name is loaded: the first full
/// name that ends with it after a slash, and else the nearest, if one is near.
///
/// # Errors
///
/// Where memory runs out.
pub fn meant_name(
    alloc: Global,
    manager: &Manager,
    who: &[u8],
    refusal: RefusalKind,
) -> Result<Option<Sequence<u8>>, AllocError>
    ensures { IfOk result (λ name. name ≡ meant_name manager.now.machine.now who.now refusal) }
{
    match refusal {
        RefusalKind::Absent => near_name(alloc, manager, who),
        _ => Ok(None),
    }
}
