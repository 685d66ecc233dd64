//! The report on profiles that no path is attached to.

ghost use Rattle.std.specs.Prelude.{◌≡◌, ◌++◌, IfOk, OnOk, flat_map, map, option_map};
ghost use Rattle.std.specs.Option.{option_copied};
ghost use Rattle.aa_set_answers.specs.Show.{attachment_line};
ghost use Rattle.aatry_check_rules.specs.UnattachedTold.{attachment_place, name_told, places_text, profile_told, unattached_in, unattached_text};
ghost use Rattle.aatry_folder.specs.PolicyFiles.{seen_files};
ghost use Rattle.aatry_report.specs.SeenFields.{seen_field};

use crate::unattached::{is_profile_asked, origin_of};
use aa_decide_ready::{Entry, entry_at};
use aa_glob_pattern::Pattern;
use aa_set_answers::push_attachment;
use aa_text_files::Place;
use aatry_folder::PolicyFiles;
use aatry_policy::{Origin, file_of};
use aatry_report::{Field, Form, Teller, tell};
use aatry_why_lines::{Finder, where_of};
use std::alloc::{AllocError, Global};

// Where the attachment of a profile is written, by its origin, if that is known.
fn attachment_place(origin: Option<&Origin>) -> Option<Place>
    ensures { result ≡ attachment_place (option_map (λ origin. origin.now) origin.entry) }
{
    match origin {
        None => None,
        Some(origin) => match &origin.places {
            None => None,
            Some(places) => places.own.attachment,
        },
    }
}

// Appends an attachment to a text as a line.
fn push_attachment_line(pattern: &Pattern, out: &mut Vec<u8>) -> Result<(), AllocError>
    ensures { OnOk result (out.new.items ≡ out.old.items ++ attachment_line pattern.now) }
{
    out.extend_from_slice(b"  ")?;
    push_attachment(out, pattern)?;
    out.push(b'\n')?;
    Ok(())
}

// Appends attachments to a text as lines.
fn push_attachments(patterns: &[Pattern], out: &mut Vec<u8>) -> Result<(), AllocError>
    ensures { OnOk result (out.new.items ≡ out.old.items ++ flat_map attachment_line patterns.now) }
{
    let mut rest = patterns;
    while let [pattern, behind @ ..] = rest {
        push_attachment_line(pattern, out)?;
        rest = behind;
    }
    Ok(())
}

// The texts of patterns, none of them copied.
fn texts_of(alloc: Global, patterns: &[Pattern]) -> Result<Vec<&[u8]>, AllocError>
    ensures { IfOk result (λ texts. map (λ text. text.now) texts.items ≡ patterns.now) }
{
    let mut texts = Vec::with_capacity(alloc, patterns.len())?;
    for pattern in patterns {
        texts.push(pattern.text())?;
    }
    Ok(texts)
}

// Appends that no path is attached to a profile to a text, with where its attachment is written; only a record has its attachments.
#[tactic(auto, unfolding(crate::specs::UnattachedTold::name_told))]
fn push_name<'x>(
    teller: Teller,
    name: &'x [u8],
    place: Field<'x>,
    attachments: &'x [&'x [u8]],
    out: &mut Vec<u8>,
) -> Result<(), AllocError>
    ensures { OnOk result (out.new.items
        ≡ out.old.items ++ name_told teller.form name.now (seen_field place.entry) (map (λ text. text.now) attachments.now)) }
{
    tell(
        teller,
        "unattached",
        &[
            place,
            Field::Words("no path is attached to this profile: "),
            Field::Text("name", name),
            Field::MemberTexts("attachments", attachments),
        ],
        out,
    )
}

// Appends that no path is attached to a profile to a text, and its attachments.
fn push_profile(
    finder: &mut Finder<'_>,
    teller: Teller,
    origin: Option<&Origin>,
    entry: &Entry,
    out: &mut Vec<u8>,
) -> Result<(), AllocError>
    ensures told { OnOk result (out.new.items ≡ out.old.items ++ profile_told teller.form finder.old (option_map (λ origin. origin.now) origin.entry) entry.now) }
    ensures same { finder.new ≡ finder.old }
{
    let found = where_of(finder, file_of(origin), attachment_place(origin))?;
    let attachments = entry.profile().attachments.as_slice();
    let texts = texts_of(teller.alloc, attachments)?;
    let name = entry.profile().name.as_slice();
    push_name(teller, name, found.field(), &texts, out)?;
    match teller.form {
        Form::Lines => push_attachments(attachments, out),
        Form::Records => Ok(()),
    }
}

// The same, if the profile is asked about.
fn push_if_asked(
    finder: &mut Finder<'_>,
    teller: Teller,
    origins: &[Origin],
    names: &[&[u8]],
    held: Option<&Entry>,
    out: &mut Vec<u8>,
) -> Result<(), AllocError>
    ensures told { OnOk result (out.new.items ≡ out.old.items ++ unattached_in teller.form finder.old origins.now (map (λ name. name.now) names.now)
        (option_copied held.entry)) }
    ensures same { finder.new ≡ finder.old }
{
    let Some(entry) = held else {
        return Ok(());
    };
    if !is_profile_asked(origins, names, entry) {
        return Ok(());
    }
    push_profile(finder, teller, origin_of(origins, entry), entry, out)
}

// The same of what each of some slots holds.
fn push_places(
    finder: &mut Finder<'_>,
    teller: Teller,
    slots: &[Option<Entry>],
    origins: &[Origin],
    names: &[&[u8]],
    places: &[usize],
    out: &mut Vec<u8>,
) -> Result<(), AllocError>
    ensures told { OnOk result (out.new.items ≡ out.old.items ++ places_text teller.form finder.old slots.now origins.now (map (λ name. name.now) names.now) places.now) }
    ensures same { finder.new ≡ finder.old }
{
    let mut rest = places;
    while let [slot, behind @ ..] = rest {
        push_if_asked(finder, teller, origins, names, entry_at(slots, *slot), out)?;
        rest = behind;
    }
    Ok(())
}

/// Appends the report on the profiles that are found to have no path attached to them to a text, of those that are asked about: a line with where
/// the attachment is written and the profile's name, and one for each of its attachments; or that the paths by which attachments differ are too
/// many. As records these are of the kinds `unattached`, with the name (`name`), where the attachment is written, and `attachments`; and
/// `too_many_attachments`.
///
/// # Errors
///
/// Where memory runs out. A beginning may have been appended then.
pub fn push_unattached(
    teller: Teller,
    below: PolicyFiles<'_>,
    slots: &[Option<Entry>],
    origins: &[Origin],
    names: &[&[u8]],
    found: &Option<Vec<usize>>,
    out: &mut Vec<u8>,
) -> Result<(), AllocError>
    ensures { OnOk result (out.new.items ≡ out.old.items ++ unattached_text teller.form (seen_files below.entry) slots.now origins.now
        (map (λ name. name.now) names.now) (option_map (λ places. places.items) found.now)) }
{
    match found {
        None => tell(
            teller,
            "too_many_attachments",
            &[Field::Words("too many: attachments")],
            out,
        ),
        Some(places) => {
            let mut finder = Finder::new(teller.alloc, below);
            push_places(&mut finder, teller, slots, origins, names, places, out)
        }
    }
}
