//! The report on profiles, children and hats that are new, gone or changed.

ghost use Rattle.std.specs.Prelude.{◌≡◌, ◌++◌, IfOk, OnOk, flat_map, map};
ghost use Rattle.aa_explain_diff.specs.Features.{seen_feature};
ghost use Rattle.aatry_changes.specs.Changes.{below_text, change_lines, changed_heading, own_text, told_change, told_changes};
ghost use Rattle.aatry_changes.specs.Folded.{own_features};
ghost use Rattle.aatry_changes.specs.PartChanges.{changed_count, seen_change, seen_changes};
ghost use Rattle.aatry_policy.specs.FolderParts.{seen_folder};
ghost use Rattle.aatry_policy.specs.SeenProfiles.{seen_part};
ghost use Rattle.aatry_shared.specs.Sides.{FindIn};
ghost use Rattle.aatry_shared.specs.declared.side.Side.TheVariants.{New, Old};
ghost use Rattle.aatry_uncertain.specs.SeenHeads.{all_left_out};

use crate::compared::Compared;
use crate::folded::{own_features, sharing_of};
use crate::headed::{push_gone, push_headed};
use crate::part_changes::{PartChange, part_changes};
use aa_explain_diff::Feature;
use aatry_report::{Form, Teller};
use aatry_shared::{
    Finders, PartPair, Sharing, Side, SidePart, finders_in, push_lines, push_shared,
};
use std::alloc::{AllocError, Global};

// Appends the heading of a changed part to a text, by the features that it has by itself.
fn push_heading(
    teller: Teller,
    name: &[u8],
    less: &[Feature<'_>],
    more: &[Feature<'_>],
    out: &mut Vec<u8>,
) -> Result<(), AllocError>
    ensures { OnOk result (out.new.items
        ≡ out.old.items ++ changed_heading teller.form name.now (map seen_feature less.now) (map seen_feature more.now)) }
{
    match teller.form {
        Form::Lines => {
            if less.is_empty() && more.is_empty() {
                Ok(())
            } else {
                push_headed(teller, "changed", name, out)
            }
        }
        Form::Records => push_headed(teller, "changed", name, out),
    }
}

// Appends the lines to a text that only the old part has, and then those that only the new one has.
fn push_below(
    finders: &mut Finders<'_>,
    teller: Teller,
    pair: &PartPair<'_>,
    less: &[Feature<'_>],
    more: &[Feature<'_>],
    out: &mut Vec<u8>,
) -> Result<(), AllocError>
    requires { FindIn (seen_folder pair.now.old.now) (seen_folder pair.now.new.now) finders.old }
    ensures told { OnOk result (out.new.items ≡ out.old.items
        ++ below_text teller.form (seen_folder pair.now.old.now) (seen_folder pair.now.new.now) (seen_part pair.now.part.now) (seen_part pair.now.other.now)
        (map seen_feature less.now) (map seen_feature more.now)) }
    ensures same { finders.new ≡ finders.old }
{
    let old = SidePart {
        folder: pair.old,
        part: pair.part,
        side: Side::Old,
    };
    let new = SidePart {
        folder: pair.new,
        part: pair.other,
        side: Side::New,
    };
    push_lines(&mut finders.of_old, teller, &old, "", less, out)?;
    push_lines(&mut finders.of_new, teller, &new, "", more, out)
}

// Appends the report on a changed part to a text, by what it has by itself.
fn push_own(
    finders: &mut Finders<'_>,
    teller: Teller,
    pair: &PartPair<'_>,
    less: &[Feature<'_>],
    more: &[Feature<'_>],
    out: &mut Vec<u8>,
) -> Result<(), AllocError>
    requires { FindIn (seen_folder pair.now.old.now) (seen_folder pair.now.new.now) finders.old }
    ensures told { OnOk result (out.new.items ≡ out.old.items
        ++ own_text teller.form (seen_folder pair.now.old.now) (seen_folder pair.now.new.now) (seen_part pair.now.part.now) (seen_part pair.now.other.now)
        (map seen_feature less.now) (map seen_feature more.now)) }
    ensures same { finders.new ≡ finders.old }
{
    push_heading(teller, pair.part.name.as_slice(), less, more, out)?;
    push_below(finders, teller, pair, less, more, out)
}

// Appends the report on a changed part to a text, by all that only one side has, and by what is shared.
fn push_changed(
    finders: &mut Finders<'_>,
    teller: Teller,
    pair: &PartPair<'_>,
    sharing: &Sharing<'_>,
    less: &[Feature<'_>],
    more: &[Feature<'_>],
    out: &mut Vec<u8>,
) -> Result<(), AllocError>
    requires { FindIn (seen_folder pair.now.old.now) (seen_folder pair.now.new.now) finders.old }
    ensures told { OnOk result (out.new.items ≡ out.old.items
        ++ own_text teller.form (seen_folder pair.now.old.now) (seen_folder pair.now.new.now) (seen_part pair.now.part.now) (seen_part pair.now.other.now)
        (own_features sharing.now (seen_part pair.now.part.now) Old (map seen_feature less.now))
        (own_features sharing.now (seen_part pair.now.other.now) New (map seen_feature more.now))) }
    ensures same { finders.new ≡ finders.old }
{
    let less = own_features(teller.alloc, sharing, pair.part, Side::Old, less)?;
    let more = own_features(teller.alloc, sharing, pair.other, Side::New, more)?;
    push_own(finders, teller, pair, &less, &more, out)
}

// Appends the report on what changes of a part to a text.
fn push_change(
    finders: &mut Finders<'_>,
    teller: Teller,
    compared: &Compared<'_>,
    sharing: &Sharing<'_>,
    change: &PartChange<'_>,
    out: &mut Vec<u8>,
) -> Result<(), AllocError>
    requires { FindIn (seen_folder compared.now.old.now) (seen_folder compared.now.new.now) finders.old }
    ensures told { OnOk result (out.new.items
        ≡ out.old.items ++ told_change teller.form (all_left_out compared.now.left_out.now.heads.items) (seen_folder compared.now.old.now) (seen_folder compared.now.new.now) sharing.now (seen_change change.now)) }
    ensures same { finders.new ≡ finders.old }
{
    match change {
        PartChange::Gone(part) => push_gone(teller, compared.left_out, part, out),
        PartChange::New(part) => push_headed(teller, "new", part.name.as_slice(), out),
        PartChange::Changed(changed) => {
            let pair = PartPair {
                old: compared.old,
                new: compared.new,
                part: changed.part,
                other: changed.other,
            };
            push_changed(
                finders,
                teller,
                &pair,
                sharing,
                &changed.less,
                &changed.more,
                out,
            )
        }
    }
}

// Appends the report on what changes of some parts to a text.
fn push_each(
    finders: &mut Finders<'_>,
    teller: Teller,
    compared: &Compared<'_>,
    sharing: &Sharing<'_>,
    changes: &[PartChange<'_>],
    out: &mut Vec<u8>,
) -> Result<(), AllocError>
    requires { FindIn (seen_folder compared.now.old.now) (seen_folder compared.now.new.now) finders.old }
    ensures told { OnOk result (out.new.items ≡ out.old.items
        ++ flat_map (told_change teller.form (all_left_out compared.now.left_out.now.heads.items) (seen_folder compared.now.old.now) (seen_folder compared.now.new.now) sharing.now) (seen_changes changes.now)) }
    ensures same { finders.new ≡ finders.old }
{
    let mut rest = changes;
    while let [change, behind @ ..] = rest {
        push_change(finders, teller, compared, sharing, change, out)?;
        rest = behind;
    }
    Ok(())
}

// Appends the report on all changes to a text: what is shared first, and then what each part has by itself.
fn push_folded(
    teller: Teller,
    compared: &Compared<'_>,
    sharing: &Sharing<'_>,
    changes: &[PartChange<'_>],
    out: &mut Vec<u8>,
) -> Result<(), AllocError>
    ensures { OnOk result (out.new.items
        ≡ out.old.items ++ told_changes teller.form (all_left_out compared.now.left_out.now.heads.items) (seen_folder compared.now.old.now) (seen_folder compared.now.new.now) sharing.now (seen_changes changes.now)) }
{
    let mut finders = finders_in(teller.alloc, compared.old, compared.new);
    push_shared(&mut finders, teller, sharing, out)?;
    push_each(&mut finders, teller, compared, sharing, changes, out)
}

/// Appends the report on what a change of policy changes to a text. A part that is gone is reported as unread where a file of the new folder is left
/// out that has the name of its profile, as far as that can be read. First comes each change that two or more parts have, a rule that is written at
/// one place and reported alike, once, with the full names of those that have it (`aatry_shared::push_shared`). Then comes each part of the old
/// folder that is gone or changed, in their order, and then each of the new folder that is new. A changed part is followed by each line that only
/// the old part has, and then by each that only the new one has, without those that are shared: its mode, a flag, an attachment, or a rule, with the
/// place where it is written. Equal things have equal lines, wherever they are written. Returns how many parts are gone, changed or new.
///
/// As lines, a part is a word and the full name, and the lines of the old part alone follow `- `, and those of the new one `+ `; a part of which all
/// that is changed is shared has no lines of its own. As records, a part's kind is `gone`, `unread`, `changed` or `new`, with its full name
/// (`name`), and its lines are of the kinds `less` and `more`, with the part's full name (`name`), the text of the line (`text`), and of a rule
/// where it is written (`aatry_why_lines::put_where`).
///
/// # Errors
///
/// Where memory runs out. A beginning may have been appended then.
pub fn push_changes(
    teller: Teller,
    compared: &Compared<'_>,
    out: &mut Vec<u8>,
) -> Result<usize, AllocError>
    ensures told { OnOk result (out.new.items ≡ out.old.items
        ++ change_lines teller.form (all_left_out compared.now.left_out.now.heads.items) (seen_folder compared.now.old.now) (seen_folder compared.now.new.now)) }
    ensures count { IfOk result (λ count. count ≡ changed_count (seen_folder compared.now.old.now) (seen_folder compared.now.new.now)) }
{
    let changes = part_changes(teller.alloc, compared.old, compared.new)?;
    let sharing = sharing_of(teller.alloc, &changes)?;
    push_folded(teller, compared, &sharing, &changes, out)?;
    Ok(changes.len())
}
