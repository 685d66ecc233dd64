//! Profiles, children and hats that are new, gone or changed.

ghost use Rattle.std.specs.Prelude.{◌≡◌, ◌++◌, IfOk, OnOk, flat_map, map};
ghost use Rattle.aa_explain_diff.specs.Features.{lacking, seen_feature};
ghost use Rattle.aatry_changes.specs.PartChanges.{changed, changed_by, new_change, old_change, part_changes, seen_changes};
ghost use Rattle.aatry_policy.specs.FolderParts.{seen_folder};
ghost use Rattle.aatry_policy.specs.SeenProfiles.{seen_part};

use aa_explain_diff::{Feature, features_of, lacking};
use aatry_policy::{FolderParts, Part, part_of};
use std::alloc::{AllocError, Global};

/// A part of the old folder, and the part of its full name in the new one, of which one has something that the other lacks.
#[derive(Drop)]
pub struct ChangedPart<'a> {
    /// The part of the old folder.
    pub part: &'a Part<'a>,
    /// The part of the new folder.
    pub other: &'a Part<'a>,
    /// What only the old one has.
    pub less: Vec<Feature<'a>>,
    /// What only the new one has.
    pub more: Vec<Feature<'a>>,
}

/// What changes of a part.
#[derive(Drop)]
pub enum PartChange<'a> {
    /// The old folder has a part of the full name, and the new one has none.
    Gone(&'a Part<'a>),
    /// The new folder has a part of the full name, and the old one has none.
    New(&'a Part<'a>),
    /// Both have a part of the full name, and these differ.
    Changed(ChangedPart<'a>),
}

// Appends what changes of a part of both folders to the changes found, by what only one side has.
fn push_differing<'a>(
    part: &'a Part<'a>,
    other: &'a Part<'a>,
    less: Vec<Feature<'a>>,
    more: Vec<Feature<'a>>,
    found: &mut Vec<PartChange<'a>>,
) -> Result<(), AllocError>
    ensures { OnOk result (seen_changes found.new.items ≡ seen_changes found.old.items
        ++ changed_by (seen_part part.now) (seen_part other.now) (map seen_feature less.entry.items) (map seen_feature more.entry.items)) }
{
    if less.is_empty() && more.is_empty() {
        return Ok(());
    }
    found.push(PartChange::Changed(ChangedPart {
        part,
        other,
        less,
        more,
    }))?;
    Ok(())
}

// Appends what changes of a part of both folders to the changes found, by what both sides have.
fn push_between<'a>(
    alloc: Global,
    part: &'a Part<'a>,
    other: &'a Part<'a>,
    before: &[Feature<'a>],
    after: &[Feature<'a>],
    found: &mut Vec<PartChange<'a>>,
) -> Result<(), AllocError>
    ensures { OnOk result (seen_changes found.new.items ≡ seen_changes found.old.items
        ++ changed_by (seen_part part.now) (seen_part other.now) (lacking (map seen_feature after.now) (map seen_feature before.now)) (lacking (map seen_feature before.now) (map seen_feature after.now))) }
{
    let less = lacking(alloc, after, before)?;
    let more = lacking(alloc, before, after)?;
    push_differing(part, other, less, more, found)
}

// Appends what changes of a part of both folders to the changes found.
fn push_changed<'a>(
    alloc: Global,
    part: &'a Part<'a>,
    other: &'a Part<'a>,
    found: &mut Vec<PartChange<'a>>,
) -> Result<(), AllocError>
    ensures { OnOk result (seen_changes found.new.items ≡ seen_changes found.old.items ++ changed (seen_part part.now) (seen_part other.now)) }
{
    let before = features_of(alloc, &part.section)?;
    let after = features_of(alloc, &other.section)?;
    push_between(alloc, part, other, &before, &after, found)
}

// Appends what changes of a part of the old folder to the changes found.
fn push_old<'a>(
    alloc: Global,
    new: &FolderParts<'a>,
    part: &'a Part<'a>,
    found: &mut Vec<PartChange<'a>>,
) -> Result<(), AllocError>
    ensures { OnOk result (seen_changes found.new.items ≡ seen_changes found.old.items ++ old_change (seen_folder new.now) (seen_part part.now)) }
{
    match part_of(new.parts, part.name.as_slice()) {
        None => {
            found.push(PartChange::Gone(part))?;
            Ok(())
        }
        Some(other) => push_changed(alloc, part, other, found),
    }
}

// Appends what changes of a part of the new folder to the changes found.
fn push_new<'a>(
    old: &FolderParts<'a>,
    part: &'a Part<'a>,
    found: &mut Vec<PartChange<'a>>,
) -> Result<(), AllocError>
    ensures { OnOk result (seen_changes found.new.items ≡ seen_changes found.old.items ++ new_change (seen_folder old.now) (seen_part part.now)) }
{
    match part_of(old.parts, part.name.as_slice()) {
        None => {
            found.push(PartChange::New(part))?;
            Ok(())
        }
        Some(_) => Ok(()),
    }
}

// Appends what changes of parts of the old folder to the changes found.
fn push_old_parts<'a>(
    alloc: Global,
    new: &FolderParts<'a>,
    parts: &'a [Part<'a>],
    found: &mut Vec<PartChange<'a>>,
) -> Result<(), AllocError>
    ensures { OnOk result (seen_changes found.new.items ≡ seen_changes found.old.items ++ flat_map (old_change (seen_folder new.now)) (map seen_part parts.now)) }
{
    let mut rest = parts;
    while let [part, behind @ ..] = rest {
        push_old(alloc, new, part, found)?;
        rest = behind;
    }
    Ok(())
}

// Appends what changes of parts of the new folder to the changes found.
fn push_new_parts<'a>(
    old: &FolderParts<'a>,
    parts: &'a [Part<'a>],
    found: &mut Vec<PartChange<'a>>,
) -> Result<(), AllocError>
    ensures { OnOk result (seen_changes found.new.items ≡ seen_changes found.old.items ++ flat_map (new_change (seen_folder old.now)) (map seen_part parts.now)) }
{
    let mut rest = parts;
    while let [part, behind @ ..] = rest {
        push_new(old, part, found)?;
        rest = behind;
    }
    Ok(())
}

/// What changes of two folders: of each part of the old one that is gone or changed, in their order, and then of each of the new one that is new.
///
/// # Errors
///
/// Where memory runs out.
pub fn part_changes<'a>(
    alloc: Global,
    old: &FolderParts<'a>,
    new: &FolderParts<'a>,
) -> Result<Vec<PartChange<'a>>, AllocError>
    ensures { IfOk result (λ found. seen_changes found.items ≡ part_changes (seen_folder old.now) (seen_folder new.now)) }
{
    let mut found = Vec::new(alloc);
    push_old_parts(alloc, new, old.parts, &mut found)?;
    push_new_parts(old, new.parts, &mut found)?;
    Ok(found)
}
