//! The report on written rules that decide nothing, and why.

ghost use Rattle.std.specs.Prelude.{◌≡◌, ◌++◌, OnOk, slice_get};
ghost use Rattle.aa_explain_redundant.specs.Examples.{seen_overlap};
ghost use Rattle.aatry_check_rules.specs.Telling.{beside_by, beside_text, example_field, example_text, is_same_as, overlap_text, plain_line, redundant_at};
ghost use Rattle.aatry_check_rules.specs.Telling.{redundant_by, rule_told, rules_told, shown_number, why_word};
ghost use Rattle.aatry_policy.specs.SeenProfiles.{seen_part};
ghost use Rattle.aatry_report.specs.SeenFields.{seen_field};

use crate::finding::RedundantRule;
use crate::numbers::place_at;
use aa_explain_redundant::{Example, Overlap};
use aa_profile_data::Rule;
use aatry_policy::Part;
use aatry_report::{Field, Form, Teller, push_shown, tell};
use aatry_why_lines::{Finder, rule_text, where_of};
use std::alloc::AllocError;

// The number of the rule by which a written rule is reported.
fn shown_number(one: &RedundantRule) -> usize
    ensures { result ≡ shown_number one.now }
{
    match &one.example {
        None => one.number,
        Some(Example::MatchesNothing) => one.number,
        Some(Example::Overlaps(overlap)) => overlap.rule,
    }
}

// Why a written rule decides nothing, in a word.
fn why_word(example: &Option<Example>) -> &'static str
    ensures { result.now ≡ why_word example.now }
{
    match example {
        None => "too_many",
        Some(Example::MatchesNothing) => "no_path",
        Some(Example::Overlaps(_)) => "path",
    }
}

// The path on which it decides nothing, in its record, if one is reported.
fn example_field(example: &Option<Example>) -> Field<'_>
    ensures { seen_field result ≡ example_field example.now }
{
    match example {
        None | Some(Example::MatchesNothing) => Field::Words(""),
        Some(Example::Overlaps(overlap)) => Field::Member("path", &overlap.path),
    }
}

// Appends a written rule that decides nothing to a text, by where one of its rules is written, that as `show` prints it, and why.
#[tactic(auto, unfolding(crate::specs::Telling::redundant_by))]
fn push_redundant_by<'x>(
    teller: Teller,
    name: &'x [u8],
    place: Field<'x>,
    text: &'x [u8],
    why: &'x str,
    example: Field<'x>,
    out: &mut Vec<u8>,
) -> Result<(), AllocError>
    ensures { OnOk result (out.new.items
        ≡ out.old.items ++ redundant_by teller.form name.now (seen_field place.entry) text.now why.now (seen_field example.entry)) }
{
    tell(
        teller,
        "redundant",
        &[
            Field::Member("name", name),
            Field::Words("  "),
            place,
            Field::Text("text", text),
            Field::MemberWord("why", why),
            example,
        ],
        out,
    )
}

// Appends a written rule that decides nothing to a text, by the number of one of its rules.
fn push_redundant(
    finder: &mut Finder<'_>,
    teller: Teller,
    part: &Part<'_>,
    one: &RedundantRule,
    out: &mut Vec<u8>,
) -> Result<(), AllocError>
    ensures told { OnOk result (out.new.items ≡ out.old.items ++ redundant_at teller.form finder.old (seen_part part.now) one.now.example (shown_number one.now)
        (slice_get (seen_part part.now).section.rules (shown_number one.now))) }
    ensures same { finder.new ≡ finder.old }
{
    let number = shown_number(one);
    let rules = part.section.rules;
    match rules.get(number) {
        None => Ok(()),
        Some(rule) => {
            let found = where_of(finder, part.file, place_at(part.places, number))?;
            let text = rule_text(teller.alloc, rule)?;
            let name = part.name.as_slice();
            let why = why_word(&one.example);
            let example = example_field(&one.example);
            push_redundant_by(teller, name, found.field(), &text, why, example, out)
        }
    }
}

// Whether a rule is the same as that of a number.
fn is_same_as(rules: &[Rule], number: usize, other: &Rule) -> bool
    ensures { result ≡ is_same_as other.now (slice_get rules.now number) }
{
    match rules.get(number) {
        None => false,
        Some(rule) => rule.is_same(other),
    }
}

// Appends a rule that stays to a text, by where it is written, and as `show` prints it: that it is the same, or that it covers something on a path, which
// is shown already.
#[tactic(auto, unfolding(crate::specs::Telling::beside_by))]
fn push_beside_by<'x>(
    teller: Teller,
    name: &'x [u8],
    same: bool,
    path: &'x [u8],
    place: Field<'x>,
    text: &'x [u8],
    out: &mut Vec<u8>,
) -> Result<(), AllocError>
    ensures { OnOk result (out.new.items ≡ out.old.items ++ beside_by teller.form name.now same path.now (seen_field place.entry) text.now) }
{
    if same {
        return tell(
            teller,
            "same",
            &[
                Field::Member("name", name),
                Field::Words("      the same as "),
                place,
                Field::Text("text", text),
            ],
            out,
        );
    }
    tell(
        teller,
        "beside",
        &[
            Field::Member("name", name),
            Field::Words("      on "),
            Field::Bytes(path),
            Field::Words(": "),
            place,
            Field::Text("text", text),
        ],
        out,
    )
}

// Appends the rule of a number that stays to a text.
fn push_beside(
    finder: &mut Finder<'_>,
    teller: Teller,
    part: &Part<'_>,
    overlap: &Overlap,
    number: usize,
    out: &mut Vec<u8>,
) -> Result<(), AllocError>
    ensures told { OnOk result (out.new.items ≡ out.old.items ++ beside_text teller.form finder.old (seen_part part.now) (seen_overlap overlap.now) number) }
    ensures same { finder.new ≡ finder.old }
{
    let rules = part.section.rules;
    match rules.get(number) {
        None => Ok(()),
        Some(rule) => {
            let same = is_same_as(rules, overlap.rule, rule);
            let found = where_of(finder, part.file, place_at(part.places, number))?;
            let text = rule_text(teller.alloc, rule)?;
            let mut path = Vec::new(teller.alloc);
            push_shown(&mut path, &overlap.path)?;
            let name = part.name.as_slice();
            push_beside_by(teller, name, same, &path, found.field(), &text, out)
        }
    }
}

// Appends all rules that stay to a text.
fn push_overlap(
    finder: &mut Finder<'_>,
    teller: Teller,
    part: &Part<'_>,
    overlap: &Overlap,
    out: &mut Vec<u8>,
) -> Result<(), AllocError>
    ensures told { OnOk result (out.new.items ≡ out.old.items ++ overlap_text teller.form finder.old (seen_part part.now) (seen_overlap overlap.now)) }
    ensures same { finder.new ≡ finder.old }
{
    let mut rest = overlap.beside.as_slice();
    while let [number, behind @ ..] = rest {
        push_beside(finder, teller, part, overlap, *number, out)?;
        rest = behind;
    }
    Ok(())
}

// Appends a line that isn't of a rule to a text; records have none.
fn push_line(form: Form, words: &str, out: &mut Vec<u8>) -> Result<(), AllocError>
    ensures { OnOk result (out.new.items ≡ out.old.items ++ plain_line form words.now) }
{
    match form {
        Form::Lines => out.extend_from_slice(words.as_bytes()),
        Form::Records => Ok(()),
    }
}

// Appends why a written rule decides nothing to a text.
fn push_example(
    finder: &mut Finder<'_>,
    teller: Teller,
    part: &Part<'_>,
    example: &Option<Example>,
    out: &mut Vec<u8>,
) -> Result<(), AllocError>
    ensures told { OnOk result (out.new.items ≡ out.old.items ++ example_text teller.form finder.old (seen_part part.now) example.now) }
    ensures same { finder.new ≡ finder.old }
{
    match example {
        None => push_line(teller.form, "      its own paths are too many\n", out),
        Some(Example::MatchesNothing) => push_line(teller.form, "      matches no path\n", out),
        Some(Example::Overlaps(overlap)) => push_overlap(finder, teller, part, overlap, out),
    }
}

// Appends a written rule that decides nothing to a text, and why.
fn push_told(
    finder: &mut Finder<'_>,
    teller: Teller,
    part: &Part<'_>,
    one: &RedundantRule,
    out: &mut Vec<u8>,
) -> Result<(), AllocError>
    ensures told { OnOk result (out.new.items ≡ out.old.items ++ rule_told teller.form finder.old (seen_part part.now) one.now) }
    ensures same { finder.new ≡ finder.old }
{
    push_redundant(finder, teller, part, one, out)?;
    push_example(finder, teller, part, &one.example, out)
}

/// Appends written rules of a part that decide nothing to a text, each with the reason: as a line with where it is written
/// (`aatry_why_lines::where_of`), by the first of its rules that matches the reported path, and below it a line for each rule that stays and
/// covers something there, or that it matches no path. As records these are of the kinds `redundant`, `beside` and `same`, each with the part's full
/// name (`name`), where it is written and the rule (`text`); a `redundant` one has `why`: `path`, with the path, `no_path`, or `too_many`, where it
/// has too many paths of its own.
///
/// # Errors
///
/// Where memory runs out. A beginning may have been appended then.
pub fn push_rules(
    finder: &mut Finder<'_>,
    teller: Teller,
    part: &Part<'_>,
    told: &[RedundantRule],
    out: &mut Vec<u8>,
) -> Result<(), AllocError>
    ensures told { OnOk result (out.new.items ≡ out.old.items ++ rules_told teller.form finder.old (seen_part part.now) told.now) }
    ensures same { finder.new ≡ finder.old }
{
    let mut rest = told;
    while let [one, behind @ ..] = rest {
        push_told(finder, teller, part, one, out)?;
        rest = behind;
    }
    Ok(())
}
