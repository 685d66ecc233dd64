//! How much differs of profiles, children and hats.

ghost use Rattle.std.specs.Prelude.{◌≡◌, ◌++◌, IfOk, OnOk, flat_map};
ghost use Rattle.aatry_changes.specs.PartChanges.{changed_count, seen_change, seen_changes};
ghost use Rattle.aatry_changes.specs.Stat.{stat_change, stat_changed, stat_lines};
ghost use Rattle.aatry_policy.specs.FolderParts.{seen_folder};
ghost use Rattle.aatry_uncertain.specs.SeenHeads.{all_left_out};

use crate::compared::Compared;
use crate::headed::{push_gone, push_headed};
use crate::part_changes::{PartChange, part_changes};
use aatry_report::{Field, Teller, tell};
use aatry_uncertain::LeftOutHeads;
use std::alloc::AllocError;

// Appends how much a part differs to a text, by how many lines only the old one and only the new one have.
fn push_stat_changed(
    teller: Teller,
    name: &[u8],
    less: usize,
    more: usize,
    out: &mut Vec<u8>,
) -> Result<(), AllocError>
    ensures { OnOk result (out.new.items ≡ out.old.items ++ stat_changed teller.form name.now less more) }
{
    tell(
        teller,
        "changed",
        &[
            Field::Words("changed: "),
            Field::Text("name", name),
            Field::Words(" (-"),
            Field::Number("less", less),
            Field::Words(" +"),
            Field::Number("more", more),
            Field::Words(")"),
        ],
        out,
    )
}

// Appends how much changes of a part to a text.
fn push_stat_change(
    teller: Teller,
    left_out: &LeftOutHeads<'_>,
    change: &PartChange<'_>,
    out: &mut Vec<u8>,
) -> Result<(), AllocError>
    ensures { OnOk result (out.new.items ≡ out.old.items ++ stat_change teller.form (all_left_out left_out.now.heads.items) (seen_change change.now)) }
{
    match change {
        PartChange::Gone(part) => push_gone(teller, left_out, part, out),
        PartChange::New(part) => push_headed(teller, "new", part.name.as_slice(), out),
        PartChange::Changed(changed) => push_stat_changed(
            teller,
            changed.part.name.as_slice(),
            changed.less.len(),
            changed.more.len(),
            out,
        ),
    }
}

// Appends how much changes of some parts to a text.
fn push_each(
    teller: Teller,
    left_out: &LeftOutHeads<'_>,
    changes: &[PartChange<'_>],
    out: &mut Vec<u8>,
) -> Result<(), AllocError>
    ensures { OnOk result (out.new.items ≡ out.old.items ++ flat_map (stat_change teller.form (all_left_out left_out.now.heads.items)) (seen_changes changes.now)) }
{
    let mut rest = changes;
    while let [change, behind @ ..] = rest {
        push_stat_change(teller, left_out, change, out)?;
        rest = behind;
    }
    Ok(())
}

/// Appends how much a change of policy changes to a text: each part of the old folder that is gone, unread (`push_changes`) or changed, in their
/// order, and then each of the new folder that is new; of a changed one how many lines `push_changes` appends of the old part alone, and how many of
/// the new one, with those that are shared. Returns how many parts are gone, changed or new.
///
/// As lines, a part is a word and the full name, and for a changed one they are followed by `(-LESS +MORE)`. As records, a part's kind is `gone`,
/// `unread`, `changed` or `new`, with its full name (`name`), and a changed one has the numbers `less` and `more`.
///
/// # Errors
///
/// Where memory runs out. A beginning may have been appended then.
pub fn push_stat(
    teller: Teller,
    compared: &Compared<'_>,
    out: &mut Vec<u8>,
) -> Result<usize, AllocError>
    ensures told { OnOk result (out.new.items ≡ out.old.items
        ++ stat_lines teller.form (all_left_out compared.now.left_out.now.heads.items) (seen_folder compared.now.old.now) (seen_folder compared.now.new.now)) }
    ensures count { IfOk result (λ count. count ≡ changed_count (seen_folder compared.now.old.now) (seen_folder compared.now.new.now)) }
{
    let changes = part_changes(teller.alloc, compared.old, compared.new)?;
    push_each(teller, compared.left_out, &changes, out)?;
    Ok(changes.len())
}
