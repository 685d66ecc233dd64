//! The summary.

ghost use Rattle.std.specs.Prelude.{◌≡◌, ◌≤◌, ◌++◌, IfOk, OnOk, count_by, length, map};
ghost use Rattle.std.specs.List.{sum_by};
ghost use Rattle.aatry_check_rules.specs.Finding.{is_absent, is_many, seen_found};
ghost use Rattle.aatry_check_rules.specs.Summary.{counts_of, summary_by, summary_text, told_in, tried_in};
ghost use Rattle.aatry_policy.specs.SeenProfiles.{seen_part};

use crate::finding::{Found, is_absent, is_many};
use crate::telling::{decide_word, rules_word};
use aatry_policy::Part;
use aatry_report::{Field, Teller, tell};
use std::alloc::AllocError;

/// The counts of the summary.
#[derive(Clone, Copy)]
pub struct Counts {
    /// How many parts were looked at.
    pub all: usize,
    /// How many of their written rules decide nothing.
    pub told: usize,
    /// How many of them were tried.
    pub tried: usize,
    /// How many parts have too many paths.
    pub many: usize,
    /// How many named files have no part.
    pub absent: usize,
    /// How many profiles no path is attached to.
    pub unattached: usize,
}

// How many rules of a part are reported.
fn told_in(found: &Found<'_>) -> usize
    ensures { result ≡ told_in (seen_found found.now) }
{
    match &found.told {
        None => 0,
        Some(told) => told.len(),
    }
}

// How many rules of a part were tried; 0 where it has too many paths.
fn tried_in(found: &Found<'_>) -> usize
    ensures { result ≡ tried_in (seen_found found.now) }
{
    match &found.told {
        None => 0,
        Some(_) => found.tried,
    }
}

// How many rules of all parts are reported.
fn told_count(found: &[Found<'_>]) -> Result<usize, AllocError>
    ensures { IfOk result (λ count. count ≡ sum_by told_in (map seen_found found.now)) }
{
    let mut count: usize = 0;
    let mut rest = found;
    while let [one, behind @ ..] = rest {
        let Some(more) = count.checked_add(told_in(one)) else {
            return Err(AllocError);
        };
        count = more;
        rest = behind;
    }
    Ok(count)
}

// How many rules of all parts were tried.
fn tried_count(found: &[Found<'_>]) -> Result<usize, AllocError>
    ensures { IfOk result (λ count. count ≡ sum_by tried_in (map seen_found found.now)) }
{
    let mut count: usize = 0;
    let mut rest = found;
    while let [one, behind @ ..] = rest {
        let Some(more) = count.checked_add(tried_in(one)) else {
            return Err(AllocError);
        };
        count = more;
        rest = behind;
    }
    Ok(count)
}

// How many parts have too many paths.
fn many_count(found: &[Found<'_>]) -> usize
    ensures counted { result ≡ count_by is_many (map seen_found found.now) }
    ensures few { result ≤ length found.now }
{
    let mut count: usize = 0;
    let mut rest = found;
    while let [one, behind @ ..] = rest {
        if is_many(one) {
            count += 1;
        }
        rest = behind;
    }
    count
}

// How many named files have no part.
fn absent_count(parts: &[Part<'_>], names: &[&[u8]]) -> usize
    ensures counted { result ≡ count_by (is_absent (map seen_part parts.now)) (map (λ name. name.now) names.now) }
    ensures few { result ≤ length names.now }
{
    let mut count: usize = 0;
    let mut rest = names;
    while let [name, behind @ ..] = rest {
        if is_absent(parts, name) {
            count += 1;
        }
        rest = behind;
    }
    count
}

// The counts of the summary.
fn counts_of(
    parts: &[Part<'_>],
    names: &[&[u8]],
    found: &[Found<'_>],
    unattached: usize,
) -> Result<Counts, AllocError>
    ensures { IfOk result (λ counts. counts ≡ counts_of (map seen_part parts.now) (map (λ name. name.now) names.now) (map seen_found found.now) unattached) }
{
    let told = told_count(found)?;
    let tried = tried_count(found)?;
    Ok(Counts {
        all: found.len(),
        told,
        tried,
        many: many_count(found),
        absent: absent_count(parts, names),
        unattached,
    })
}

// Appends the summary to a text, by its counts.
fn push_counts(teller: Teller, counts: Counts, out: &mut Vec<u8>) -> Result<(), AllocError>
    ensures { OnOk result (out.new.items ≡ out.old.items ++ summary_by teller.form counts) }
{
    tell(
        teller,
        "summary",
        &[
            Field::Number("all", counts.all),
            Field::Words(" profiles, children and hats: "),
            Field::Number("redundant", counts.told),
            Field::Words(rules_word(counts.told)),
            Field::Words(" of "),
            Field::Number("tried", counts.tried),
            Field::Words(decide_word(counts.told)),
            Field::Share("unattached", counts.unattached, " unattached"),
            Field::Share("too_many", counts.many, " too many"),
            Field::Share("absent", counts.absent, " absent"),
        ],
        out,
    )
}

/// Appends the summary to a text: how many parts were looked at, how many of their written rules decide nothing, of how many that were tried, how
/// profiles no path is attached to, how many parts have too many paths, and how many named files don't exist, where there are such; or as a
/// record of the kind `summary` with a number for each: `all`, `redundant`, `tried`, `too_many`, `unattached` and `absent`.
///
/// # Errors
///
/// Where memory runs out, and where there are more rules than can be counted. A beginning may have been appended then.
pub fn push_summary(
    teller: Teller,
    parts: &[Part<'_>],
    names: &[&[u8]],
    found: &[Found<'_>],
    unattached: usize,
    out: &mut Vec<u8>,
) -> Result<(), AllocError>
    ensures { OnOk result (out.new.items ≡ out.old.items
        ++ summary_text teller.form (map seen_part parts.now) (map (λ name. name.now) names.now) (map seen_found found.now) unattached) }
{
    let counts = counts_of(parts, names, found, unattached)?;
    push_counts(teller, counts, out)
}
