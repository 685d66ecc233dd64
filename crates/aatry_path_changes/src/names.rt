//! Who is compared.

ghost use Rattle.std.specs.Prelude.{◌≡◌, ◌++◌, ◌∷◌, [], IfOk, OnOk, filter, map};
ghost use Rattle.aatry_changes.specs.PartChanges.{is_new};
ghost use Rattle.aatry_path_changes.specs.Finding.{names_or, part_names};
ghost use Rattle.aatry_policy.specs.FolderParts.{seen_folder};
ghost use Rattle.aatry_policy.specs.SeenProfiles.{seen_part};

use aatry_policy::{FolderParts, Part, part_of};
use std::alloc::{AllocError, Global};

// Appends names to others.
fn push_names(alloc: Global, who: &[&[u8]], names: &mut Vec<Vec<u8>>) -> Result<(), AllocError>
    ensures { OnOk result (map (λ name. name.items) names.new.items ≡ map (λ name. name.items) names.old.items ++ map (λ name. name.now) who.now) }
{
    let mut rest = who;
    while let [name, behind @ ..] = rest {
        names.push(Vec::from_slice(alloc, name)?)?;
        rest = behind;
    }
    Ok(())
}

// Appends the names of parts.
fn push_part_names(
    alloc: Global,
    parts: &[Part<'_>],
    names: &mut Vec<Vec<u8>>,
) -> Result<(), AllocError>
    ensures { OnOk result (map (λ name. name.items) names.new.items ≡ map (λ name. name.items) names.old.items ++ part_names (map seen_part parts.now)) }
{
    let mut rest = parts;
    while let [part, behind @ ..] = rest {
        names.push(Vec::from_slice(alloc, part.name.as_slice())?)?;
        rest = behind;
    }
    Ok(())
}

// Appends the name of a part, if the old folder has none of it.
fn push_if_new(
    alloc: Global,
    old: &FolderParts<'_>,
    part: &Part<'_>,
    names: &mut Vec<Vec<u8>>,
) -> Result<(), AllocError>
    ensures { OnOk result (map (λ name. name.items) names.new.items
        ≡ map (λ name. name.items) names.old.items ++ part_names (filter (is_new (seen_folder old.now)) (map seen_part (part.now ∷ [])))) }
{
    match part_of(old.parts, part.name.as_slice()) {
        None => {
            names.push(Vec::from_slice(alloc, part.name.as_slice())?)?;
            Ok(())
        }
        Some(_) => Ok(()),
    }
}

// The same of some parts.
fn push_new_names(
    alloc: Global,
    old: &FolderParts<'_>,
    parts: &[Part<'_>],
    names: &mut Vec<Vec<u8>>,
) -> Result<(), AllocError>
    ensures { OnOk result (map (λ name. name.items) names.new.items
        ≡ map (λ name. name.items) names.old.items ++ part_names (filter (is_new (seen_folder old.now)) (map seen_part parts.now))) }
{
    let mut rest = parts;
    while let [part, behind @ ..] = rest {
        push_if_new(alloc, old, part, names)?;
        rest = behind;
    }
    Ok(())
}

/// The names of those who are compared: these, where there are some, and else those of all of the old folder, and then of those that the new one has alone.
///
/// # Errors
///
/// Where memory runs out.
pub fn names_asked(
    alloc: Global,
    old: &FolderParts<'_>,
    new: &FolderParts<'_>,
    who: &[&[u8]],
) -> Result<Vec<Vec<u8>>, AllocError>
    ensures { IfOk result (λ names. map (λ name. name.items) names.items ≡ names_or (map (λ name. name.now) who.now) (seen_folder old.now) (seen_folder new.now)) }
{
    let mut names = Vec::new(alloc);
    if who.is_empty() {
        push_part_names(alloc, old.parts, &mut names)?;
        push_new_names(alloc, old, new.parts, &mut names)?;
    } else {
        push_names(alloc, who, &mut names)?;
    }
    Ok(names)
}
