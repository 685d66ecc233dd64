//! The report on profiles, children and hats with written rules that decide nothing.

ghost use Rattle.std.specs.Prelude.{◌≡◌, ◌++◌, ◌∷◌, [], OnOk, filter, flat_map, map};
ghost use Rattle.aatry_check_rules.specs.Finding.{is_absent, seen_found};
ghost use Rattle.aatry_check_rules.specs.Telling.{absents_text, all_text, decide_word, found_text, heading_line, heading_text, part_told, rules_word};
ghost use Rattle.aatry_folder.specs.PolicyFiles.{seen_files};
ghost use Rattle.aatry_policy.specs.SeenProfiles.{seen_part};

use crate::finding::{Found, RedundantRule, is_absent};
use crate::rules_told::push_rules;
use aatry_folder::PolicyFiles;
use aatry_policy::Part;
use aatry_report::{Field, Form, Teller, push_number, push_shown, tell};
use aatry_why_lines::Finder;
use std::alloc::AllocError;

/// The word for so many rules. It takes no memory.
pub fn rules_word(count: usize) -> &'static str
    ensures { result.now ≡ rules_word count }
{
    if count == 1 { " rule" } else { " rules" }
}

/// What so many rules do. It takes no memory.
pub fn decide_word(count: usize) -> &'static str
    ensures { result.now ≡ decide_word count }
{
    if count == 1 {
        " decides nothing"
    } else {
        " decide nothing"
    }
}

// Appends the line over the rules of a part to a text.
#[tactic(auto, unfolding(crate::specs::Telling::heading_line))]
fn push_heading_line(name: &[u8], count: usize, out: &mut Vec<u8>) -> Result<(), AllocError>
    ensures { OnOk result (out.new.items ≡ out.old.items ++ heading_line name.now count) }
{
    push_shown(out, name)?;
    push_number(out, ": ", count)?;
    out.extend_from_slice(rules_word(count).as_bytes())?;
    out.extend_from_slice(decide_word(count).as_bytes())?;
    out.push(b'\n')?;
    Ok(())
}

// Appends the heading of a part to a text; records have none, since each rule has the part's name.
fn push_heading(form: Form, name: &[u8], count: usize, out: &mut Vec<u8>) -> Result<(), AllocError>
    ensures { OnOk result (out.new.items ≡ out.old.items ++ heading_text form name.now count) }
{
    match form {
        Form::Lines => push_heading_line(name, count, out),
        Form::Records => Ok(()),
    }
}

// Appends the report on a part to a text: nothing, where each of its rules decides something.
fn push_part(
    finder: &mut Finder<'_>,
    teller: Teller,
    part: &Part<'_>,
    told: &[RedundantRule],
    out: &mut Vec<u8>,
) -> Result<(), AllocError>
    ensures told { OnOk result (out.new.items ≡ out.old.items ++ part_told teller.form finder.old (seen_part part.now) told.now) }
    ensures same { finder.new ≡ finder.old }
{
    if told.is_empty() {
        return Ok(());
    }
    push_heading(teller.form, part.name.as_slice(), told.len(), out)?;
    push_rules(finder, teller, part, told, out)
}

// Appends the report on what is found of a part to a text.
fn push_found(
    finder: &mut Finder<'_>,
    teller: Teller,
    found: &Found<'_>,
    out: &mut Vec<u8>,
) -> Result<(), AllocError>
    ensures told { OnOk result (out.new.items ≡ out.old.items ++ found_text teller.form finder.old (seen_found found.now)) }
    ensures same { finder.new ≡ finder.old }
{
    let part = found.part;
    match &found.told {
        None => tell(
            teller,
            "too_many",
            &[
                Field::Words("too many: "),
                Field::Text("name", part.name.as_slice()),
            ],
            out,
        ),
        Some(told) => push_part(finder, teller, part, told, out),
    }
}

// Appends the report on all that is found to a text.
fn push_each(
    finder: &mut Finder<'_>,
    teller: Teller,
    found: &[Found<'_>],
    out: &mut Vec<u8>,
) -> Result<(), AllocError>
    ensures told { OnOk result (out.new.items ≡ out.old.items ++ all_text teller.form finder.old (map seen_found found.now)) }
    ensures same { finder.new ≡ finder.old }
{
    let mut rest = found;
    while let [one, behind @ ..] = rest {
        push_found(finder, teller, one, out)?;
        rest = behind;
    }
    Ok(())
}

/// Appends the report on parts to a text, one after another: a line with its full name and how many of its written rules decide nothing, where some
/// do, and below it these rules (`push_rules`); or that it has too many paths. Records are of the rules alone, and one of the kind `too_many`, with
/// the full name (`name`).
///
/// # Errors
///
/// Where memory runs out. A beginning may have been appended then.
pub fn push_all(
    teller: Teller,
    below: PolicyFiles<'_>,
    found: &[Found<'_>],
    out: &mut Vec<u8>,
) -> Result<(), AllocError>
    ensures { OnOk result (out.new.items ≡ out.old.items ++ all_text teller.form (seen_files below.entry) (map seen_found found.now)) }
{
    let mut finder = Finder::new(teller.alloc, below);
    push_each(&mut finder, teller, found, out)
}

// Appends that no profile of a named file is loaded to a text, if no part is of the file.
fn push_if_absent(
    teller: Teller,
    parts: &[Part<'_>],
    name: &[u8],
    out: &mut Vec<u8>,
) -> Result<(), AllocError>
    ensures { OnOk result (out.new.items ≡ out.old.items ++ absents_text teller.form (map seen_part parts.now) (name.now ∷ [])) }
{
    if !is_absent(parts, name) {
        return Ok(());
    }
    tell(
        teller,
        "absent",
        &[
            Field::Words("absent: no profile is loaded of the file "),
            Field::Text("name", name),
        ],
        out,
    )
}

/// Appends the named files of which no part is to a text: since there is no such file at the top of the folder, or it is left out, or has no
/// profile. As records they are of the kind `absent`, with the name (`name`).
///
/// # Errors
///
/// Where memory runs out. A beginning may have been appended then.
pub fn push_absents(
    teller: Teller,
    parts: &[Part<'_>],
    names: &[&[u8]],
    out: &mut Vec<u8>,
) -> Result<(), AllocError>
    ensures { OnOk result (out.new.items ≡ out.old.items ++ absents_text teller.form (map seen_part parts.now) (map (λ name. name.now) names.now)) }
{
    let mut rest = names;
    while let [name, behind @ ..] = rest {
        push_if_absent(teller, parts, name, out)?;
        rest = behind;
    }
    Ok(())
}
