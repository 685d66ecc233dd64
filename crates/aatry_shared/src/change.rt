//! Changes that several profiles may have.

ghost use Rattle.std.specs.Prelude.{◌≡◌, IfOk, option_map};
ghost use Rattle.std.specs.Cmp as cmp;
ghost use Rattle.aa_explain_diff.specs.Features.{seen_feature};
ghost use Rattle.aatry_policy.specs.SeenProfiles.{seen_part};
ghost use Rattle.aatry_shared.specs.SeenSharing.{seen_change};
ghost use Rattle.aatry_shared.specs.Sharing.{change_at, same_side};
ghost use Rattle.aatry_shared.specs.code.Keys.{hashed, same_key};
ghost use Rattle.aatry_shared.specs.code.SameKeys.{same-equiv, same-hashed};

use crate::part_features::{feature_text, place_at};
use crate::side::Side;
use aa_explain_diff::Feature;
use aa_text_files::Place;
use aatry_policy::Part;
use std::alloc::{AllocError, Global};
use std::hash::{Hash, Hasher};

/// A rule that only one side of a profile, child or hat has. Two are equal (`==`) where they are of the same side, and the rules are written at one
/// place, and printed alike.
#[derive(Drop)]
pub struct Change {
    /// The side that has it.
    pub side: Side,
    /// Where it is written, in the files of that side.
    pub place: Place,
    /// How it is printed.
    pub text: Vec<u8>,
}

// Whether two sides are one.
fn same_side(one: Side, other: Side) -> bool
    ensures { result ≡ same_side one other }
{
    match (one, other) {
        (Side::Old, Side::Old) => true,
        (Side::New, Side::New) => true,
        _ => false,
    }
}

impl PartialEq for Change {
    ghost eq = { same_key };

    ghost laws = { cmp.partial_equiv_from_equiv same-equiv };

    fn eq(&self, other: &Self) -> bool {
        same_side(self.side, other.side)
            && self.place.file == other.place.file
            && self.place.at == other.place.at
            && self.text.as_slice() == other.text.as_slice()
    }
}

impl Eq for Change {
    ghost laws = { same-equiv };
}

impl Hash for Change {
    ghost hash_input = { λ change. hashed (seen_change change) };

    ghost respects_eq = { same-hashed };

    fn hash<H: Hasher>(&self, state: &mut H) {
        self.text.as_slice().hash(state);
        self.place.file.hash(state);
        self.place.at.hash(state);
    }
}

/// The change of a feature that only one side of a part has, if it is a rule whose place is known.
///
/// # Errors
///
/// Where memory runs out.
pub fn change_at(
    alloc: Global,
    part: &Part<'_>,
    side: Side,
    feature: Feature<'_>,
) -> Result<Option<Change>, AllocError>
    ensures { IfOk result (λ change. option_map seen_change change ≡ change_at (seen_part part.now) side (seen_feature feature.entry)) }
{
    match feature {
        Feature::Rule(_, number) => match place_at(part.places, number) {
            None => Ok(None),
            Some(place) => {
                let text = feature_text(alloc, feature)?;
                Ok(Some(Change { side, place, text }))
            }
        },
        _ => Ok(None),
    }
}
