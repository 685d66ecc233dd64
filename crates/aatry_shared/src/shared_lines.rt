//! The report on changes that several profiles have in common.

ghost use Rattle.std.specs.Prelude.{◌≡◌, ◌++◌, IfOk, OnOk, flat_map, slice_get};
ghost use Rattle.aatry_report.specs.SeenFields.{seen_field};
ghost use Rattle.aatry_shared.specs.SeenSharing.{seen_change, seen_group, seen_names};
ghost use Rattle.aatry_shared.specs.SharedLines.{group_text, names_text, next_name, shared_lines, shared_text, sharers_text, written_text};
ghost use Rattle.aatry_shared.specs.code.Steps.{group_text_at, text_by_side};

use crate::sharing::{Group, Sharing, are_several};
use crate::side::{Finders, Side, kind_of, sign_of};
use aatry_report::{Field, Teller, push_number, push_shown, tell};
use aatry_why_lines::{Finder, where_of};
use std::alloc::{AllocError, Global};

// Appends names to a text, each after a comma.
fn push_next_names(names: &[&[u8]], out: &mut Vec<u8>) -> Result<(), AllocError>
    ensures { OnOk result (out.new.items ≡ out.old.items ++ flat_map next_name (seen_names names.now)) }
{
    let mut rest = names;
    while let [name, behind @ ..] = rest {
        out.extend_from_slice(b", ")?;
        push_shown(out, name)?;
        rest = behind;
    }
    Ok(())
}

// Appends names to a text, with a comma between two.
fn push_names(names: &[&[u8]], out: &mut Vec<u8>) -> Result<(), AllocError>
    ensures { OnOk result (out.new.items ≡ out.old.items ++ names_text (seen_names names.now)) }
{
    match names {
        [] => Ok(()),
        [name, behind @ ..] => {
            push_shown(out, name)?;
            push_next_names(behind, out)
        }
    }
}

// How many profiles, children and hats have a change, and which.
fn sharers_text(alloc: Global, names: &[&[u8]]) -> Result<Vec<u8>, AllocError>
    ensures { IfOk result (λ text. text.items ≡ sharers_text (seen_names names.now)) }
{
    let mut text = Vec::new(alloc);
    push_number(&mut text, "  in ", names.len())?;
    text.extend_from_slice(b" profiles: ")?;
    push_names(names, &mut text)?;
    Ok(text)
}

// Appends a change and the names that have it to a text, by where its rule is written, and by who has it, in words.
fn push_written<'x>(
    teller: Teller,
    group: &'x Group<'_, '_>,
    place: Field<'x>,
    sharers: &'x [u8],
    out: &mut Vec<u8>,
) -> Result<(), AllocError>
    ensures { OnOk result (out.new.items ≡ out.old.items ++ written_text teller.form (seen_group group.now) (seen_field place.entry) sharers.now) }
{
    tell(
        teller,
        kind_of(group.change.side),
        &[
            Field::Words(sign_of(group.change.side)),
            place,
            Field::Text("text", &group.change.text),
            Field::Words("\n"),
            Field::Bytes(sharers),
            Field::MemberTexts("profiles", group.names),
        ],
        out,
    )
}

// Appends a change and the names that have it to a text.
fn push_text(
    finder: &mut Finder<'_>,
    teller: Teller,
    group: &Group<'_, '_>,
    out: &mut Vec<u8>,
) -> Result<(), AllocError>
    ensures told { OnOk result (out.new.items ≡ out.old.items ++ shared_text teller.form finder.old (seen_group group.now)) }
    ensures same { finder.new ≡ finder.old }
{
    let found = where_of(finder, b"", Some(group.change.place))?;
    let sharers = sharers_text(teller.alloc, group.names)?;
    push_written(teller, group, found.field(), &sharers, out)
}

// Appends a change and the names that have it to a text, by the files of its side.
fn push_by_side(
    finders: &mut Finders<'_>,
    teller: Teller,
    group: &Group<'_, '_>,
    out: &mut Vec<u8>,
) -> Result<(), AllocError>
    ensures told { OnOk result (out.new.items ≡ out.old.items ++ text_by_side teller.form finders.old.of_old finders.old.of_new (seen_group group.now)) }
    ensures same { finders.new ≡ finders.old }
{
    match group.change.side {
        Side::Old => push_text(&mut finders.of_old, teller, group, out),
        Side::New => push_text(&mut finders.of_new, teller, group, out),
    }
}

// Appends a change and the names that have it to a text, if there are several.
fn push_group(
    finders: &mut Finders<'_>,
    teller: Teller,
    group: &Group<'_, '_>,
    out: &mut Vec<u8>,
) -> Result<(), AllocError>
    ensures told { OnOk result (out.new.items ≡ out.old.items ++ group_text teller.form finders.old.of_old finders.old.of_new (seen_group group.now)) }
    ensures same { finders.new ≡ finders.old }
{
    if are_several(group.names) {
        push_by_side(finders, teller, group, out)
    } else {
        Ok(())
    }
}

// Appends the change at an index, if there is one, and the names that have it to a text, if there are several.
fn push_group_at(
    finders: &mut Finders<'_>,
    teller: Teller,
    sharing: &Sharing<'_>,
    place: usize,
    out: &mut Vec<u8>,
) -> Result<(), AllocError>
    ensures told { OnOk result (out.new.items
        ≡ out.old.items ++ group_text_at teller.form finders.old.of_old finders.old.of_new (slice_get sharing.now place)) }
    ensures same { finders.new ≡ finders.old }
{
    match sharing.get(place) {
        Some(group) => push_group(finders, teller, &group, out),
        None => Ok(()),
    }
}

/// Appends the changes that two or more profiles, children and hats have to a text, in the order in which they first came, each once. As a line it
/// follows the side's sign, with where the rule is written, and below it how many have it and their full names. As a record of the kind `less` or
/// `more` it has these names (`profiles`), where the rule is written (`aatry_why_lines::where_of`), and its text (`text`).
///
/// # Errors
///
/// Where memory runs out. A beginning may have been appended then.
pub fn push_shared(
    finders: &mut Finders<'_>,
    teller: Teller,
    sharing: &Sharing<'_>,
    out: &mut Vec<u8>,
) -> Result<(), AllocError>
    ensures told { OnOk result (out.new.items ≡ out.old.items ++ shared_lines teller.form finders.old.of_old finders.old.of_new sharing.now) }
    ensures same { finders.new ≡ finders.old }
{
    for place in 0..sharing.len() {
        push_group_at(finders, teller, sharing, place, out)?;
    }
    Ok(())
}
