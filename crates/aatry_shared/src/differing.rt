//! The report on the features of a part that another part lacks.

ghost use Rattle.std.specs.Prelude.{◌≡◌, ◌++◌, IfOk, OnOk, map};
ghost use Rattle.aa_explain_diff.specs.Features.{seen_feature};
ghost use Rattle.aatry_shared.specs.Differing.{feature_told, seen_if, told_line, told_lines, where_of_feature};
ghost use Rattle.aatry_policy.specs.FolderParts.{seen_folder};
ghost use Rattle.aatry_policy.specs.SeenProfiles.{seen_part};
ghost use Rattle.aatry_report.specs.SeenFields.{seen_field};

use crate::part_features::{feature_text, place_at};
use crate::side::{SidePart, kind_of, sign_of};
use aa_explain_diff::Feature;
use aatry_report::{Field, Teller, tell};
use aatry_why_lines::{Finder, Where, where_of};
use std::alloc::AllocError;

// Where the rule of a feature is written, if it is one.
fn where_of_feature(
    finder: &mut Finder<'_>,
    own: &SidePart<'_>,
    feature: Feature<'_>,
) -> Result<Option<Where>, AllocError>
    requires { finder.old ≡ (seen_folder own.now.folder.now).below }
    ensures told { IfOk result (λ found. seen_if found
        ≡ where_of_feature (seen_folder own.now.folder.now) (seen_part own.now.part.now) (seen_feature feature.entry)) }
    ensures same { finder.new ≡ finder.old }
{
    match feature {
        Feature::Rule(_, number) => {
            let place = place_at(own.part.places, number);
            Ok(Some(where_of(finder, own.part.file, place)?))
        }
        _ => Ok(None),
    }
}

// The field that reports it.
fn field_of(found: &Option<Where>) -> Field<'_>
    ensures { seen_field result ≡ seen_if found.now }
{
    match found {
        None => Field::Words(""),
        Some(found) => found.field(),
    }
}

// Appends a feature to a text, by where its rule is written, if it is one, and its text.
fn push_written<'x>(
    teller: Teller,
    own: &'x SidePart<'_>,
    blanks: &'x str,
    place: Field<'x>,
    text: &'x [u8],
    out: &mut Vec<u8>,
) -> Result<(), AllocError>
    ensures { OnOk result (out.new.items
        ≡ out.old.items ++ feature_told teller.form (seen_part own.now.part.now) blanks.now own.now.side (seen_field place.entry) text.now) }
{
    tell(
        teller,
        kind_of(own.side),
        &[
            Field::Words(blanks),
            Field::Words(sign_of(own.side)),
            Field::Member("name", own.part.name.as_slice()),
            place,
            Field::Text("text", text),
        ],
        out,
    )
}

// Appends a feature to a text.
fn push_told(
    finder: &mut Finder<'_>,
    teller: Teller,
    own: &SidePart<'_>,
    blanks: &str,
    feature: Feature<'_>,
    out: &mut Vec<u8>,
) -> Result<(), AllocError>
    requires { finder.old ≡ (seen_folder own.now.folder.now).below }
    ensures told { OnOk result (out.new.items
        ≡ out.old.items ++ told_line teller.form (seen_folder own.now.folder.now) (seen_part own.now.part.now) blanks.now own.now.side (seen_feature feature.entry)) }
    ensures same { finder.new ≡ finder.old }
{
    let text = feature_text(teller.alloc, feature)?;
    let found = where_of_feature(finder, own, feature)?;
    push_written(teller, own, blanks, field_of(&found), &text, out)
}

/// Appends features of a part that another part lacks to a text. As a line each follows these blanks and the side's sign, a rule with where it is
/// written. As a record of the kind `less` or `more` it has the part's full name (`name`), of a rule where it is written
/// (`aatry_why_lines::where_of`), and its text (`text`). The features are this part's, and `finder` finds places in its folder.
///
/// # Errors
///
/// Where memory runs out. A beginning may have been appended then.
pub fn push_lines(
    finder: &mut Finder<'_>,
    teller: Teller,
    own: &SidePart<'_>,
    blanks: &str,
    features: &[Feature<'_>],
    out: &mut Vec<u8>,
) -> Result<(), AllocError>
    requires { finder.old ≡ (seen_folder own.now.folder.now).below }
    ensures told { OnOk result (out.new.items ≡ out.old.items
        ++ told_lines teller.form (seen_folder own.now.folder.now) (seen_part own.now.part.now) blanks.now own.now.side (map seen_feature features.now)) }
    ensures same { finder.new ≡ finder.old }
{
    let mut rest = features;
    while let [feature, behind @ ..] = rest {
        push_told(finder, teller, own, blanks, *feature, out)?;
        rest = behind;
    }
    Ok(())
}
