//! The report on who is asked about.

ghost use Rattle.std.specs.Prelude.{◌≡◌, ◌++◌, OnOk, map, option_map};
ghost use Rattle.aa_explain_paths.specs.Answers.{seen_breaking};
ghost use Rattle.aatry_claims.specs.Found.{seen_found};
ghost use Rattle.aatry_claims.specs.SeenClaimed.{seen_claimed};
ghost use Rattle.aatry_folder.specs.PolicyFiles.{seen_files};
ghost use Rattle.aatry_claims.specs.Telling.{all_told, asked_lines, breaking_lines, has_undecided, is_lacking, is_refuted, rule_lines, told, written_of};
ghost use Rattle.aatry_policy.specs.SeenProfiles.{seen_part};
ghost use Rattle.aatry_why_lines.specs.Written.{seen_rules};

use crate::breaking::{Claimed, breaking_of};
use crate::found::{Found, asks_rules};
use crate::held::{is_held, is_undecided};
use crate::sentences::push_found;
use aa_explain_paths::{Breaking, Claim};
use aa_explain_rules::AskedRules;
use aatry_folder::PolicyFiles;
use aatry_policy::Part;
use aatry_report::Teller;
use aatry_why_lines::{WrittenRules, push_why};
use std::alloc::AllocError;

// The rules of a part, with where they are written.
fn written_of<'a>(below: PolicyFiles<'a>, part: &Part<'a>) -> WrittenRules<'a>
    ensures { seen_rules result ≡ written_of (seen_files below.entry) (seen_part part.now) }
{
    WrittenRules {
        below,
        name: part.file,
        rules: AskedRules::Listed {
            audit: part.section.audit,
            rules: part.section.rules,
        },
        places: part.places,
    }
}

// Whether the claim is that something is allowed, so that a path that breaks it lacks a rule.
fn is_lacking(claim: Claim) -> bool
    ensures { result ≡ is_lacking claim }
{
    match claim {
        Claim::Never => false,
        Claim::Always => true,
    }
}

// Appends the rules of a part that decide a path that breaks the claim to a text.
fn push_asked_rules(
    teller: Teller,
    below: PolicyFiles<'_>,
    claim: Claim,
    part: &Part<'_>,
    breaking: &Breaking,
    out: &mut Vec<u8>,
) -> Result<(), AllocError>
    ensures { OnOk result (out.new.items ≡ out.old.items
        ++ asked_lines teller.form (seen_files below.entry) claim (seen_part part.now) (seen_breaking breaking.now)) }
{
    let written = written_of(below, part);
    push_why(
        teller,
        &written,
        &breaking.request(),
        is_lacking(claim),
        out,
    )?;
    Ok(())
}

// Appends the rules of a part that decide a path that breaks the claim to a text, where its rules decide.
fn push_breaking_rules(
    teller: Teller,
    below: PolicyFiles<'_>,
    claim: Claim,
    part: &Part<'_>,
    breaking: &Breaking,
    out: &mut Vec<u8>,
) -> Result<(), AllocError>
    ensures { OnOk result (out.new.items ≡ out.old.items
        ++ breaking_lines teller.form (seen_files below.entry) claim (seen_part part.now) (seen_breaking breaking.now)) }
{
    if !asks_rules(part.section.mode) {
        return Ok(());
    }
    push_asked_rules(teller, below, claim, part, breaking, out)
}

// Appends the rules that decide to a text, if there is a path of a part that breaks the claim.
fn push_rules(
    teller: Teller,
    below: PolicyFiles<'_>,
    claim: Claim,
    part: Option<&Part<'_>>,
    breaking: Option<&Breaking>,
    out: &mut Vec<u8>,
) -> Result<(), AllocError>
    ensures { OnOk result (out.new.items ≡ out.old.items
        ++ rule_lines teller.form (seen_files below.entry) claim (option_map (λ part. seen_part part.now) part.entry)
        (option_map (λ breaking. seen_breaking breaking.now) breaking.entry)) }
{
    match (part, breaking) {
        (Some(part), Some(breaking)) => {
            push_breaking_rules(teller, below, claim, part, breaking, out)
        }
        _ => Ok(()),
    }
}

// Appends the report on who was asked about to a text, with the rules, unless only names are reported.
fn push_told(
    teller: Teller,
    names: bool,
    below: PolicyFiles<'_>,
    claimed: Claimed<'_>,
    found: &Found<'_>,
    out: &mut Vec<u8>,
) -> Result<(), AllocError>
    ensures { OnOk result (out.new.items ≡ out.old.items
        ++ told teller.form names (seen_files below.entry) (seen_claimed claimed.entry) (seen_found found.now)) }
{
    push_found(teller, claimed, found, out)?;
    if names {
        return Ok(());
    }
    push_rules(
        teller,
        below,
        claimed.claim,
        found.part,
        breaking_of(&found.finding),
        out,
    )
}

/// Appends the report on all who were asked about to a text: a line for each, or a record, and below it the rules that decide a path that breaks the
/// claim, as `aatry_why_lines::push_why` appends them, unless only names are reported.
///
/// # Errors
///
/// Where memory runs out. A beginning may have been appended then.
pub fn push_all(
    teller: Teller,
    names: bool,
    below: PolicyFiles<'_>,
    claimed: Claimed<'_>,
    found: &[Found<'_>],
    out: &mut Vec<u8>,
) -> Result<(), AllocError>
    ensures { OnOk result (out.new.items ≡ out.old.items
        ++ all_told teller.form names (seen_files below.entry) (seen_claimed claimed.entry) (map seen_found found.now)) }
{
    let mut rest = found;
    while let [one, behind @ ..] = rest {
        push_told(teller, names, below, claimed, one, out)?;
        rest = behind;
    }
    Ok(())
}

/// Whether the claim is refuted: a name breaks it, or doesn't exist.
pub fn is_refuted(found: &[Found<'_>]) -> bool
    ensures { result ≡ is_refuted (map seen_found found.now) }
{
    let mut rest = found;
    while let [one, behind @ ..] = rest {
        if !is_held(&one.finding) && !is_undecided(&one.finding) {
            return true;
        }
        rest = behind;
    }
    false
}

/// Whether the claim is undecided for a name.
pub fn has_undecided(found: &[Found<'_>]) -> bool
    ensures { result ≡ has_undecided (map seen_found found.now) }
{
    let mut rest = found;
    while let [one, behind @ ..] = rest {
        if is_undecided(&one.finding) {
            return true;
        }
        rest = behind;
    }
    false
}
