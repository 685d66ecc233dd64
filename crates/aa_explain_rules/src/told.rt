//! The rules of a list that apply to a request, and those that are near it.

ghost use Rattle.std.specs.Prelude.{◌≡◌, IfOk};
ghost use Rattle.aa_profile_data.specs.SeenRequests.{request_of};
ghost use Rattle.aa_explain_rules.specs.Asked.{audits_of, rules_of};
ghost use Rattle.aa_explain_rules.specs.Told.{is_near, near, told, told_rule};
ghost use Rattle.aa_explain_rules.specs.code.Among.{among, passes_at, told_among, told_at};

use crate::asked::AskedRules;
use crate::near::is_near;
use aa_decide_rules::{applies, covers, denies, is_audited};
use aa_profile_data::{Perms, Request, Rule};
use std::alloc::{AllocError, Global};

/// What a rule does that applies to a request.
#[derive(Clone, Copy, Debug, PartialEq, Eq)]
pub struct ToldRule {
    /// Its place (index) among the rules, from 0.
    pub place: usize,
    /// Whether it denies what it covers; else it allows that.
    pub denies: bool,
    /// What it covers of what is asked for: letters of a file, or the only need of any other request.
    pub covered: Perms,
    /// Whether what it does is logged, by its own qualifier or by the flag of its profile.
    pub audited: bool,
}

// What the rule at a place does.
fn told_rule(audit: bool, request: &Request<'_>, place: usize, rule: &Rule) -> ToldRule
    ensures { result ≡ told_rule audit (request_of request.entry.now) place rule.now }
{
    ToldRule {
        place,
        denies: denies(rule),
        covered: covers(request, rule),
        audited: is_audited(audit, rule),
    }
}

// What the rule at a place does, if it applies to a request.
fn told_at(audit: bool, request: &Request<'_>, rules: &[Rule], place: usize) -> Option<ToldRule>
    ensures { result ≡ told_at audit (request_of request.entry.now) rules.now place }
{
    match rules.get(place) {
        None => None,
        Some(rule) => {
            if applies(request, rule) {
                Some(told_rule(audit, request, place, rule))
            } else {
                None
            }
        }
    }
}

// What the rules at some places do that apply to a request.
fn told_among(
    alloc: Global,
    audit: bool,
    rules: &[Rule],
    request: &Request<'_>,
    places: &[usize],
) -> Result<Vec<ToldRule>, AllocError>
    ensures { IfOk result (λ found. found.items ≡ told_among audit (request_of request.entry.now) rules.now places.now) }
{
    let mut found = Vec::new(alloc);
    let mut rest = places;
    while let [place, behind @ ..] = rest {
        if let Some(told) = told_at(audit, request, rules, *place) {
            found.push(told)?;
        }
        rest = behind;
    }
    Ok(found)
}

/// Returns the rules that apply to a request, and what each of them does, in their order: those by which `aa_decide_ready::ReadySection::decide`
/// answers it.
///
/// # Errors
///
/// Where memory runs out.
pub fn told_rules(
    alloc: Global,
    rules: AskedRules<'_>,
    request: &Request<'_>,
) -> Result<Vec<ToldRule>, AllocError>
    ensures { IfOk result (λ found. found.items ≡ told (audits_of rules.entry) (request_of request.entry.now) (rules_of rules.entry)) }
{
    let places = rules.concerned(alloc, request)?;
    told_among(alloc, rules.audits(), rules.as_slice(), request, &places)
}

// Whether the rule at a place is near a request.
fn is_near_at(request: &Request<'_>, rules: &[Rule], place: usize) -> bool
    ensures { result ≡ passes_at (is_near (request_of request.entry.now)) rules.now place }
{
    match rules.get(place) {
        None => false,
        Some(rule) => is_near(request, rule),
    }
}

// Those of some places whose rules are near a request.
fn near_among(
    alloc: Global,
    rules: &[Rule],
    request: &Request<'_>,
    places: &[usize],
) -> Result<Vec<usize>, AllocError>
    ensures { IfOk result (λ found. found.items ≡ among (is_near (request_of request.entry.now)) rules.now places.now) }
{
    let mut found = Vec::new(alloc);
    let mut rest = places;
    while let [place, behind @ ..] = rest {
        if is_near_at(request, rules, *place) {
            found.push(*place)?;
        }
        rest = behind;
    }
    Ok(found)
}

/// The places (indices) of the rules that are near a request for a file, in their order: allow rules whose pattern matches the path, and which allow
/// nothing of what is asked for, because of their letters, or because they have `owner`. No rule is near any other request.
///
/// # Errors
///
/// Where memory runs out.
pub fn near_rules(
    alloc: Global,
    rules: AskedRules<'_>,
    request: &Request<'_>,
) -> Result<Vec<usize>, AllocError>
    ensures { IfOk result (λ found. found.items ≡ near (request_of request.entry.now) (rules_of rules.entry)) }
{
    let places = rules.concerned(alloc, request)?;
    near_among(alloc, rules.as_slice(), request, &places)
}
