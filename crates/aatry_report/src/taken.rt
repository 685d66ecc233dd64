//! The report on a file of policy that was taken.

ghost use Rattle.std.specs.Prelude.{◌≡◌, ◌+◌, ◌++◌, IfOk, OnOk, codes, map};
ghost use Rattle.aatry_report.specs.Records.{with_number, with_texts};
ghost use Rattle.aatry_report.specs.SeenRecord.{seen_record};
ghost use Rattle.aatry_report.specs.Taken.{count_text, count_words, counted, is_kept, is_unconfined, kept_in, kept_in_children, kept_rules, kept_text};
ghost use Rattle.aatry_report.specs.Taken.{names_text, profile_names, taken_line, taken_record, unconfined_in, unconfined_text, with_unconfined};
ghost use Rattle.aatry_report.specs.declared.form.Form.TheVariants as form;

use crate::form::{Form, Teller};
use crate::numbers::push_number;
use crate::record::Record;
use crate::shown::push_shown;
use aa_profile_data::{Child, Mode, Profile, Rule};
use std::alloc::{AllocError, Global};

// Whether a rule is kept as it is written, and decides nothing here.
fn is_kept(rule: &Rule) -> bool
    ensures { result ≡ is_kept rule.now }
{
    matches!(rule, Rule::Other(_))
}

// How many of these rules decide nothing here.
fn kept_in(rules: &[Rule]) -> usize
    ensures { result ≡ kept_in rules.now }
{
    let mut count = 0;
    for rule in rules {
        if is_kept(rule) {
            count += 1;
        }
    }
    count
}

// How many rules of a profile's children and hats decide nothing here, added to a number, up to the greatest one.
fn add_kept_in_children(kept: usize, children: &[Child]) -> usize
    ensures { result ≡ counted (kept + kept_in_children children.now) }
{
    let mut sum = kept;
    let mut rest = children;
    while let [child, behind @ ..] = rest {
        sum = sum.saturating_add(kept_in(child.rules.as_slice()));
        rest = behind;
    }
    sum
}

// How many rules of these profiles, of their children and hats, are kept as they are written and decide nothing here; where they are more than a
// `usize` counts, the greatest one.
fn kept_rules(profiles: &[Profile]) -> usize
    ensures { result ≡ counted (kept_rules profiles.now) }
{
    let mut sum: usize = 0;
    let mut rest = profiles;
    while let [profile, behind @ ..] = rest {
        let own = sum.saturating_add(kept_in(profile.rules.as_slice()));
        sum = add_kept_in_children(own, profile.children.as_slice());
        rest = behind;
    }
    sum
}

// Whether no rule decides in a mode.
fn is_unconfined(mode: Mode) -> bool
    ensures { result ≡ is_unconfined mode }
{
    matches!(mode, Mode::Unconfined)
}

// How many of these profiles confine nothing.
fn unconfined_in(profiles: &[Profile]) -> usize
    ensures { result ≡ unconfined_in profiles.now }
{
    let mut count = 0;
    for profile in profiles {
        if is_unconfined(profile.mode) {
            count += 1;
        }
    }
    count
}

// Appends the names of profiles to a text, each after a blank.
fn push_names(out: &mut Vec<u8>, profiles: &[Profile]) -> Result<(), AllocError>
    ensures { OnOk result (out.new.items ≡ out.old.items ++ names_text profiles.now) }
{
    for profile in profiles {
        out.push(b' ')?;
        push_shown(out, profile.name.as_slice())?;
    }
    Ok(())
}

// The words after the number of profiles that confine nothing.
const UNCONFINED: &str = " of its profiles confine nothing";

// The words after the number of rules that decide nothing here.
const KEPT: &str = " of its rules decide nothing here";

// Appends a count to a text, in these words.
fn push_count_words(out: &mut Vec<u8>, count: usize, words: &str) -> Result<(), AllocError>
    ensures { OnOk result (out.new.items ≡ out.old.items ++ count_words count words.now) }
{
    push_number(out, "; ", count)?;
    out.extend_from_slice(words.as_bytes())?;
    Ok(())
}

// Appends a count to a text, in these words, if it isn't 0.
fn push_count(out: &mut Vec<u8>, count: usize, words: &str) -> Result<(), AllocError>
    ensures { OnOk result (out.new.items ≡ out.old.items ++ count_text count words.now) }
{
    if count == 0 {
        return Ok(());
    }
    push_count_words(out, count, words)
}

// Appends how many profiles confine nothing to a text, where there are any.
fn push_unconfined(out: &mut Vec<u8>, unconfined: usize) -> Result<(), AllocError>
    ensures { OnOk result (out.new.items ≡ out.old.items ++ unconfined_text unconfined) }
{
    push_count(out, unconfined, UNCONFINED)
}

// Appends how many rules decide nothing here to a text, where there are any.
fn push_kept(out: &mut Vec<u8>, kept: usize) -> Result<(), AllocError>
    ensures { OnOk result (out.new.items ≡ out.old.items ++ kept_text kept) }
{
    push_count(out, kept, KEPT)
}

// The names of profiles.
fn profile_names(alloc: Global, profiles: &[Profile]) -> Result<Vec<&[u8]>, AllocError>
    ensures { IfOk result (λ names. map (λ name. name.now) names.items ≡ profile_names profiles.now) }
{
    let mut names = Vec::with_capacity(alloc, profiles.len())?;
    for profile in profiles {
        names.push(profile.name.as_slice())?;
    }
    Ok(names)
}

// Puts how many profiles confine nothing into a record, where there are any.
fn put_unconfined(alloc: Global, unconfined: usize, into: &mut Record) -> Result<(), AllocError>
    ensures { OnOk result (seen_record into.new ≡ with_unconfined unconfined (seen_record into.old)) }
{
    if unconfined == 0 {
        return Ok(());
    }
    into.put_number(alloc, "unconfined", unconfined)
}

// Puts the names of profiles into a record, how many of them confine nothing, if any, and how many of their rules decide nothing here.
fn put_profiles(alloc: Global, profiles: &[Profile], into: &mut Record) -> Result<(), AllocError>
    ensures { OnOk result (seen_record into.new ≡ with_number (codes "ignored") (counted (kept_rules profiles.now))
        (with_unconfined (unconfined_in profiles.now) (with_texts (codes "profiles") (profile_names profiles.now) (seen_record into.old)))) }
{
    let names = profile_names(alloc, profiles)?;
    into.put_texts(alloc, "profiles", &names)?;
    put_unconfined(alloc, unconfined_in(profiles), into)?;
    into.put_number(alloc, "ignored", kept_rules(profiles))
}

// Appends the line of a file that was taken to a text.
fn push_line(path: &[u8], profiles: &[Profile], out: &mut Vec<u8>) -> Result<(), AllocError>
    ensures { OnOk result (out.new.items ≡ out.old.items ++ taken_line form.Lines path.now profiles.now) }
{
    push_shown(out, path)?;
    out.extend_from_slice(b": taken:")?;
    push_names(out, profiles)?;
    push_unconfined(out, unconfined_in(profiles))?;
    push_kept(out, kept_rules(profiles))?;
    out.push(b'\n')?;
    Ok(())
}

// The record of a file that was taken.
fn taken_record(alloc: Global, path: &[u8], profiles: &[Profile]) -> Result<Record, AllocError>
    ensures { IfOk result (λ made. seen_record made ≡ taken_record path.now profiles.now) }
{
    let mut made = Record::new(alloc, "taken")?;
    made.put_text(alloc, "file", path)?;
    put_profiles(alloc, profiles, &mut made)?;
    Ok(made)
}

/// Appends a file that was taken to a text. As a line: `PATH: taken: NAME..`, with the names of its profiles, followed by how many of them confine
/// nothing (`docs/policy.md`, "The mode unconfined") and how many of their rules decide nothing here ("Rules that are kept"), where there are any.
/// As a record: of the kind `taken`, with the members `file`, `profiles` and `ignored`, and `unconfined` where profiles confine nothing.
///
/// # Errors
///
/// Where memory runs out. A beginning may have been appended then.
pub fn push_taken(
    teller: Teller,
    path: &[u8],
    profiles: &[Profile],
    out: &mut Vec<u8>,
) -> Result<(), AllocError>
    ensures { OnOk result (out.new.items ≡ out.old.items ++ taken_line teller.form path.now profiles.now) }
{
    match teller.form {
        Form::Lines => push_line(path, profiles, out),
        Form::Records => taken_record(teller.alloc, path, profiles)?.push(teller.alloc, out),
    }
}
