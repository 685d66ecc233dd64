//! The rules by which two folders answer a question differently.

ghost use Rattle.std.specs.Prelude.{◌≡◌, ◌++◌, IfOk, OnOk, Some, map, option_map};
ghost use Rattle.aa_explain_diff.specs.Features.{seen_feature};
ghost use Rattle.aa_profile_data.specs.SeenRequests.{request_of};
ghost use Rattle.aatry_shared.specs.Causes.{cause_lines, causes_of, covering_of};
ghost use Rattle.aatry_policy.specs.FolderParts.{seen_folder};
ghost use Rattle.aatry_policy.specs.SeenProfiles.{seen_part};

use crate::differing::push_lines;
use crate::part_features::covering_features;
use crate::side::{Side, SidePart, finder_in};
use aa_explain_diff::{Feature, lacking};
use aa_profile_data::Request;
use aatry_policy::{FolderParts, Part, part_of};
use aatry_report::Teller;
use std::alloc::{AllocError, Global};

// The rules of a part that cover some of the request's needs; none where there is no part.
fn covering_of<'a>(
    alloc: Global,
    part: Option<&Part<'a>>,
    request: &Request<'_>,
) -> Result<Vec<Feature<'a>>, AllocError>
    ensures { IfOk result (λ rules. map seen_feature rules.items
        ≡ covering_of (request_of request.entry.now) (option_map (λ part. seen_part part.now) part.entry)) }
{
    match part {
        None => Ok(Vec::new(alloc)),
        Some(part) => covering_features(alloc, request, part.section.rules),
    }
}

// Appends those of a part's rules that the other part lacks to a text.
fn push_lacking(
    teller: Teller,
    own: &SidePart<'_>,
    others: &[Feature<'_>],
    rules: &[Feature<'_>],
    out: &mut Vec<u8>,
) -> Result<(), AllocError>
    ensures { OnOk result (out.new.items ≡ out.old.items
        ++ causes_of teller.form (seen_folder own.now.folder.now) (Some (seen_part own.now.part.now)) own.now.side (map seen_feature others.now) (map seen_feature rules.now)) }
{
    let found = lacking(teller.alloc, others, rules)?;
    let mut finder = finder_in(teller.alloc, own.folder);
    push_lines(&mut finder, teller, own, "  ", &found, out)
}

// Appends those of a part's rules that the other part lacks to a text, if there is a part.
fn push_causes_of(
    teller: Teller,
    folder: &FolderParts<'_>,
    part: Option<&Part<'_>>,
    side: Side,
    others: &[Feature<'_>],
    rules: &[Feature<'_>],
    out: &mut Vec<u8>,
) -> Result<(), AllocError>
    ensures { OnOk result (out.new.items ≡ out.old.items
        ++ causes_of teller.form (seen_folder folder.now) (option_map (λ part. seen_part part.now) part.entry) side (map seen_feature others.now) (map seen_feature rules.now)) }
{
    match part {
        None => Ok(()),
        Some(part) => {
            let own = SidePart { folder, part, side };
            push_lacking(teller, &own, others, rules, out)
        }
    }
}

/// Appends the rules of a full name that make a difference between two folders to a request, to a text: those of the old part that cover some of the
/// request's needs and that the new one lacks, and those of the new one that the old one lacks, each with the place where it is written. As lines
/// these follow `  - ` and `  + `; as records they are of the kinds `less` and `more`, with the full name (`name`) and the rule (`text`). Where a
/// folder doesn't have the name, it has no such rule.
///
/// # Errors
///
/// Where memory runs out. A beginning may have been appended then.
pub fn push_causes(
    teller: Teller,
    old: &FolderParts<'_>,
    new: &FolderParts<'_>,
    who: &[u8],
    request: &Request<'_>,
    out: &mut Vec<u8>,
) -> Result<(), AllocError>
    ensures { OnOk result (out.new.items
        ≡ out.old.items ++ cause_lines teller.form (seen_folder old.now) (seen_folder new.now) who.now (request_of request.entry.now)) }
{
    let part = part_of(old.parts, who);
    let other = part_of(new.parts, who);
    let before = covering_of(teller.alloc, part, request)?;
    let after = covering_of(teller.alloc, other, request)?;
    push_causes_of(teller, old, part, Side::Old, &after, &before, out)?;
    push_causes_of(teller, new, other, Side::New, &before, &after, out)
}
