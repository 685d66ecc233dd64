//! Rules that conflict with the one that a request lacks.

ghost use Rattle.std.specs.Prelude.{◌≡◌, IfOk, not};
ghost use Rattle.aa_profile_data.specs.SeenRequests.{request_of};
ghost use Rattle.aa_profile_data.specs.Conflicts.{same_transition};
ghost use Rattle.aa_explain_rules.specs.Asked.{rules_of};
ghost use Rattle.aa_explain_rules.specs.InTheWay.{in_the_way, is_in_the_way, leads_elsewhere};
ghost use Rattle.aa_explain_rules.specs.Missing.{inherit};
ghost use Rattle.aa_explain_rules.specs.code.Among.{among, passes_at};

use crate::asked::AskedRules;
use crate::missing::lacked;
use aa_profile_data::{ExecWord, Perms, Rank, Request, Rule, Transition};
use bitflags::Flags;
use std::alloc::{AllocError, Global};

// Whether a transition leads elsewhere than to the profile that starts the program.
fn leads_away(transition: &Transition) -> bool
    ensures { result ≡ not (same_transition transition.now inherit) }
{
    !(transition.word.is_same(ExecWord::Inherit) && transition.target.is_none())
}

// Whether a rule leads the program of a path elsewhere, with the rank of a plain pattern.
fn leads_elsewhere(path: &[u8], rule: &Rule) -> bool
    ensures { result ≡ leads_elsewhere path.now rule.now }
{
    let Rule::File(rule) = rule else {
        return false;
    };
    if rule.deny {
        return false;
    }
    match &rule.exec {
        None => false,
        Some(transition) => {
            rule.rank.is_same(Rank::Plain) && leads_away(transition) && rule.pattern.matches(path)
        }
    }
}

// Whether a rule conflicts with one that allows some needs of a request.
fn is_in_the_way(request: &Request<'_>, needs: Perms, rule: &Rule) -> bool
    ensures { result ≡ is_in_the_way (request_of request.entry.now) needs.0 rule.now }
{
    match request {
        Request::File { path, .. } => needs.contains(Perms::EXEC) && leads_elsewhere(path, rule),
        Request::Cap(_) => false,
        Request::Net { .. } => false,
    }
}

// Whether the rule at a place conflicts with one that allows some needs of a request.
fn is_in_the_way_at(request: &Request<'_>, needs: Perms, rules: &[Rule], place: usize) -> bool
    ensures { result ≡ passes_at (is_in_the_way (request_of request.entry.now) needs.0) rules.now place }
{
    match rules.get(place) {
        None => false,
        Some(rule) => is_in_the_way(request, needs, rule),
    }
}

// Those of some places whose rules conflict with one that allows some needs of a request.
fn in_the_way_among(
    alloc: Global,
    request: &Request<'_>,
    needs: Perms,
    rules: &[Rule],
    places: &[usize],
) -> Result<Vec<usize>, AllocError>
    ensures { IfOk result (λ found. found.items ≡ among (is_in_the_way (request_of request.entry.now) needs.0) rules.now places.now) }
{
    let mut found = Vec::new(alloc);
    let mut rest = places;
    while let [place, behind @ ..] = rest {
        if is_in_the_way_at(request, needs, rules, *place) {
            found.push(*place)?;
        }
        rest = behind;
    }
    Ok(found)
}

/// The places of the rules that conflict with the one that a request lacks (`missing_rule`), in their order: those that lead the program of its path
/// elsewhere than to the profile that starts it, with the rank of a plain pattern. A profile that had one of them and the missing rule too would be
/// refused (docs/policy.md, "Rules that conflict"). Empty where the start of a program isn't missing.
///
/// # Errors
///
/// Where memory runs out.
pub fn rules_in_the_way(
    alloc: Global,
    rules: AskedRules<'_>,
    request: &Request<'_>,
) -> Result<Vec<usize>, AllocError>
    ensures { IfOk result (λ found. found.items ≡ in_the_way (request_of request.entry.now) (rules_of rules.entry)) }
{
    let places = rules.concerned(alloc, request)?;
    let needs = lacked(request, rules.as_slice(), &places);
    in_the_way_among(alloc, request, needs, rules.as_slice(), &places)
}
