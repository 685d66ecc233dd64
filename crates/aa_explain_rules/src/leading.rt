//! The rules that decide under which profile a program runs that is started.

ghost use Rattle.std.specs.Prelude.{◌≡◌, IfOk, false};
ghost use Rattle.aa_decide_rules.specs.Choices.{denies, dominates};
ghost use Rattle.aa_decide_rules.specs.ExecRules.{applies_to};
ghost use Rattle.aa_explain_rules.specs.Asked.{rules_of};
ghost use Rattle.aa_explain_rules.specs.Leading.{highest_that, leading_places, says};
ghost use Rattle.aa_explain_rules.specs.code.Among.{among, passes_at, some_among};

use crate::asked::AskedRules;
use aa_profile_data::{FileRule, Perms, Rank, Request, Rule};
use std::alloc::{AllocError, Global};

// Whether a rule applies to a path.
fn applies_to(owned: bool, path: &[u8], rule: &FileRule) -> bool
    ensures { result ≡ applies_to owned path.now rule.now }
{
    rule.pattern.matches(path) && (!rule.owner || owned)
}

// Whether a rule denies the start of the program of a path.
fn denies(owned: bool, path: &[u8], rule: &Rule) -> bool
    ensures { result ≡ says denies false owned path.now rule.now }
{
    match rule {
        Rule::File(rule) => applies_to(owned, path, rule) && rule.deny && rule.covers_exec(),
        _ => false,
    }
}

// Whether a rule leads the program of a path somewhere with this rank. Those that do so with the highest rank decide where it runs.
fn dominates(rank: Rank, owned: bool, path: &[u8], rule: &Rule) -> bool
    ensures { result ≡ says (dominates rank) false owned path.now rule.now }
{
    match rule {
        Rule::File(rule) => {
            applies_to(owned, path, rule)
                && !rule.deny
                && rule.exec.is_some()
                && rule.rank.is_same(rank)
        }
        _ => false,
    }
}

// Whether the rule at a place denies the start of the program of a path.
fn denies_at(owned: bool, path: &[u8], rules: &[Rule], place: usize) -> bool
    ensures { result ≡ passes_at (says denies false owned path.now) rules.now place }
{
    match rules.get(place) {
        None => false,
        Some(rule) => denies(owned, path, rule),
    }
}

// Whether the rule at a place leads the program of a path somewhere with this rank.
fn dominates_at(rank: Rank, owned: bool, path: &[u8], rules: &[Rule], place: usize) -> bool
    ensures { result ≡ passes_at (says (dominates rank) false owned path.now) rules.now place }
{
    match rules.get(place) {
        None => false,
        Some(rule) => dominates(rank, owned, path, rule),
    }
}

// Whether a rule at some places denies the start of the program of a path.
fn some_denies(owned: bool, path: &[u8], rules: &[Rule], places: &[usize]) -> bool
    ensures { result ≡ some_among (says denies false owned path.now) rules.now places.now }
{
    let mut rest = places;
    while let [place, behind @ ..] = rest {
        if denies_at(owned, path, rules, *place) {
            return true;
        }
        rest = behind;
    }
    false
}

// Whether a rule at some places leads the program of a path somewhere with this rank.
fn some_dominates(rank: Rank, owned: bool, path: &[u8], rules: &[Rule], places: &[usize]) -> bool
    ensures { result ≡ some_among (says (dominates rank) false owned path.now) rules.now places.now }
{
    let mut rest = places;
    while let [place, behind @ ..] = rest {
        if dominates_at(rank, owned, path, rules, *place) {
            return true;
        }
        rest = behind;
    }
    false
}

// The highest rank with which a rule at some places leads the program of a path somewhere; the lowest where none does.
fn highest(owned: bool, path: &[u8], rules: &[Rule], places: &[usize]) -> Rank
    ensures { result ≡ highest_that (λ rank. some_among (says (dominates rank) false owned path.now) rules.now places.now) }
{
    if some_dominates(Rank::Plain, owned, path, rules, places) {
        Rank::Plain
    } else if some_dominates(Rank::Loose, owned, path, rules, places) {
        Rank::Loose
    } else {
        Rank::Last
    }
}

// Those of some places whose rules lead the program of a path somewhere with this rank.
fn dominating(
    alloc: Global,
    rank: Rank,
    owned: bool,
    path: &[u8],
    rules: &[Rule],
    places: &[usize],
) -> Result<Vec<usize>, AllocError>
    ensures { IfOk result (λ found. found.items ≡ among (says (dominates rank) false owned path.now) rules.now places.now) }
{
    let mut found = Vec::new(alloc);
    let mut rest = places;
    while let [place, behind @ ..] = rest {
        if dominates_at(rank, owned, path, rules, *place) {
            found.push(*place)?;
        }
        rest = behind;
    }
    Ok(found)
}

/// The places (indices) of the rules that decide under which profile the program of a path runs that is started (docs/policy.md, "The start of a
/// program"), in their order: of those with an exec word that apply, the ones of the highest rank. Empty where a deny rule with `x` applies. `owned`
/// says whether the task's user owns the file.
///
/// # Errors
///
/// Where memory runs out.
pub fn leading_rules(
    alloc: Global,
    rules: AskedRules<'_>,
    owned: bool,
    path: &[u8],
) -> Result<Vec<usize>, AllocError>
    ensures { IfOk result (λ found. found.items ≡ leading_places owned path.now (rules_of rules.entry)) }
{
    let needs = Perms::EXEC;
    let places = rules.concerned(alloc, &Request::File { needs, owned, path })?;
    let rules = rules.as_slice();
    if some_denies(owned, path, rules, &places) {
        return Ok(Vec::new(alloc));
    }
    let rank = highest(owned, path, rules, &places);
    dominating(alloc, rank, owned, path, rules, &places)
}
