//! Features that another section doesn't have.

ghost use Rattle.std.specs.Prelude.{◌≡◌, ◌++◌, ◌∷◌, [], IfOk, IsTrue, OnOk, map, not, true};
ghost use Rattle.aa_explain_diff.specs.Features.{Feature as SeenFeature, has_feature, lacking, seen_feature};
ghost use Rattle.aa_explain_diff.specs.code.Keys.{is_among};

use crate::features::Feature;
use indexmap::IndexSet;
use std::alloc::{AllocError, Global};

// Some features as a set.
fn set_of<'a>(alloc: Global, features: &[Feature<'a>]) -> Result<IndexSet<Feature<'a>>, AllocError>
    ensures { IfOk result (λ keys. (feature : SeenFeature) → is_among keys.keys feature ≡ has_feature (map seen_feature features.now) feature) }
{
    let mut keys = IndexSet::new(alloc);
    for feature in features {
        keys.insert(*feature)?;
    }
    Ok(keys)
}

// Whether this is the feature at a place of a list.
fn stands_at(features: &[Feature<'_>], place: usize, feature: Feature<'_>) -> bool
    ensures { IsTrue result → has_feature (map seen_feature features.now) (seen_feature feature.entry) ≡ true }
{
    match features.get(place) {
        None => false,
        Some(other) => feature == *other,
    }
}

// Whether others don't have the feature at a place; `keys` is the set of all that they have. Most features are at the same place on both sides, so
// that place is looked at first.
fn is_lacked<'a>(
    others: &[Feature<'a>],
    keys: &IndexSet<Feature<'a>>,
    place: usize,
    feature: Feature<'a>,
) -> bool
    requires { (feature : SeenFeature) → is_among keys.now.keys feature ≡ has_feature (map seen_feature others.now) feature }
    ensures { result ≡ not (has_feature (map seen_feature others.now) (seen_feature feature.entry)) }
{
    !stands_at(others, place, feature) && !keys.contains(&feature)
}

/// The features of a list that another list of features lacks, in their order.
///
/// # Errors
///
/// Where memory runs out.
pub fn lacking<'a>(
    alloc: Global,
    others: &[Feature<'a>],
    features: &[Feature<'a>],
) -> Result<Vec<Feature<'a>>, AllocError>
    ensures { IfOk result (λ found. map seen_feature found.items ≡ lacking (map seen_feature others.now) (map seen_feature features.now)) }
{
    let keys = set_of(alloc, others)?;
    let mut found = Vec::new(alloc);
    let mut place = 0;
    let mut rest = features;
    while let [feature, behind @ ..] = rest {
        if is_lacked(others, &keys, place, *feature) {
            found.push(*feature)?;
        }
        place += 1;
        rest = behind;
    }
    Ok(found)
}
