//! Which changes of profiles, children and hats are shared, and which each has by itself.

ghost use Rattle.std.specs.Prelude.{◌≡◌, ◌++◌, IfOk, OnOk, map};
ghost use Rattle.aa_explain_diff.specs.Features.{seen_feature};
ghost use Rattle.aatry_changes.specs.Folded.{groups_of, having_of, havings_in, havings_of, is_own, own_features, own_if};
ghost use Rattle.aatry_changes.specs.PartChanges.{seen_change, seen_changes};
ghost use Rattle.aatry_changes.specs.code.Steps.{gathered_changes};
ghost use Rattle.aatry_policy.specs.SeenProfiles.{seen_part};
ghost use Rattle.aatry_shared.specs.Sharing.{gathered_behind};

use crate::part_changes::PartChange;
use aa_explain_diff::Feature;
use aatry_policy::Part;
use aatry_shared::{Sharing, Side, change_at};
use std::alloc::{AllocError, Global};

// Adds a feature that only one side of a part has to the shared changes, if other parts may share it.
fn add_feature<'a>(
    alloc: Global,
    part: &'a Part<'a>,
    side: Side,
    feature: Feature<'_>,
    sharing: &mut Sharing<'a>,
) -> Result<(), AllocError>
    ensures { OnOk result (sharing.new ≡ gathered_behind sharing.old (having_of (seen_part part.now) side (seen_feature feature.entry))) }
{
    match change_at(alloc, part, side, feature)? {
        None => Ok(()),
        Some(change) => sharing.add(part.name.as_slice(), change),
    }
}

// Adds features that only one side of a part has to the shared changes, as far as other parts may share them.
fn add_features<'a>(
    alloc: Global,
    part: &'a Part<'a>,
    side: Side,
    features: &[Feature<'_>],
    sharing: &mut Sharing<'a>,
) -> Result<(), AllocError>
    ensures { OnOk result (sharing.new ≡ gathered_behind sharing.old (havings_of (seen_part part.now) side (map seen_feature features.now))) }
{
    let mut rest = features;
    while let [feature, behind @ ..] = rest {
        add_feature(alloc, part, side, *feature, sharing)?;
        rest = behind;
    }
    Ok(())
}

// Adds what changes of a part to the shared changes, as far as other parts may share it.
#[tactic(auto, using(crate::proofs::FoldLemmas::gathered_both))]
fn add_change<'a>(
    alloc: Global,
    change: &PartChange<'a>,
    sharing: &mut Sharing<'a>,
) -> Result<(), AllocError>
    ensures { OnOk result (sharing.new ≡ gathered_behind sharing.old (havings_in (seen_change change.now))) }
{
    match change {
        PartChange::Gone(_) | PartChange::New(_) => Ok(()),
        PartChange::Changed(changed) => {
            add_features(alloc, changed.part, Side::Old, &changed.less, sharing)?;
            add_features(alloc, changed.other, Side::New, &changed.more, sharing)
        }
    }
}

// Adds what changes of some parts to the shared changes, as far as other parts may share it.
fn add_changes<'a>(
    alloc: Global,
    changes: &[PartChange<'a>],
    sharing: &mut Sharing<'a>,
) -> Result<(), AllocError>
    ensures { OnOk result (sharing.new ≡ gathered_changes sharing.old (seen_changes changes.now)) }
{
    let mut rest = changes;
    while let [change, behind @ ..] = rest {
        add_change(alloc, change, sharing)?;
        rest = behind;
    }
    Ok(())
}

/// The changes that parts have, in the order in which they first come, each once with those that have it.
///
/// # Errors
///
/// Where memory runs out.
#[tactic(auto, using(crate::proofs::FoldLemmas::all_gathered))]
pub fn sharing_of<'a>(alloc: Global, changes: &[PartChange<'a>]) -> Result<Sharing<'a>, AllocError>
    ensures { IfOk result (λ sharing. sharing ≡ groups_of (seen_changes changes.now)) }
{
    let mut sharing = Sharing::new(alloc);
    add_changes(alloc, changes, &mut sharing)?;
    Ok(sharing)
}

// Whether a feature that only one side of a part has is reported below the part.
fn is_own(
    alloc: Global,
    sharing: &Sharing<'_>,
    part: &Part<'_>,
    side: Side,
    feature: Feature<'_>,
) -> Result<bool, AllocError>
    ensures { IfOk result (λ own. own ≡ is_own sharing.now (seen_part part.now) side (seen_feature feature.entry)) }
{
    match change_at(alloc, part, side, feature)? {
        None => Ok(true),
        Some(change) => Ok(!sharing.is_shared(&change)),
    }
}

// Appends a feature that only one side of a part has to `features`, if it is reported below the part.
fn push_if_own<'a>(
    alloc: Global,
    sharing: &Sharing<'_>,
    part: &Part<'_>,
    side: Side,
    feature: Feature<'a>,
    features: &mut Vec<Feature<'a>>,
) -> Result<(), AllocError>
    ensures { OnOk result (map seen_feature features.new.items
        ≡ map seen_feature features.old.items ++ own_if sharing.now (seen_part part.now) side (seen_feature feature.entry)) }
{
    if is_own(alloc, sharing, part, side, feature)? {
        features.push(feature)?;
    }
    Ok(())
}

/// The features that only one side of a part has and that are reported below the part: changes that aren't shared.
///
/// # Errors
///
/// Where memory runs out.
pub fn own_features<'a>(
    alloc: Global,
    sharing: &Sharing<'_>,
    part: &Part<'_>,
    side: Side,
    features: &[Feature<'a>],
) -> Result<Vec<Feature<'a>>, AllocError>
    ensures { IfOk result (λ own. map seen_feature own.items ≡ own_features sharing.now (seen_part part.now) side (map seen_feature features.now)) }
{
    let mut own = Vec::new(alloc);
    let mut rest = features;
    while let [feature, behind @ ..] = rest {
        push_if_own(alloc, sharing, part, side, *feature, &mut own)?;
        rest = behind;
    }
    Ok(own)
}
