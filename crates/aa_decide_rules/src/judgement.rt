//! What rules say of a request, and how that is logged.

ghost use Rattle.std.specs.Prelude.{◌≡◌};
ghost use Rattle.aa_decide_rules.specs.Verdict.{allows, allows_aloud, audited, denied, denies, denies_aloud};
ghost use Rattle.aa_decide_rules.specs.Verdict.{granted, letters_among, logged, loud, verdict, with_rule};
ghost use Rattle.aa_decide_rules.specs.Found.{covers_found, found_mask, found_verdict, put_if, verdict_by};
ghost use Rattle.aa_profile_data.specs.Picked.{picked};
ghost use Rattle.aa_profile_data.specs.SeenRequests.{request_of};

use crate::cover::{covered_by_file, covers, denies, is_audited, needs};
use crate::verdict::{Answer, Tag, Verdict};
use aa_profile_data::{Perms, Request, Rule};
use bitflags::Flags;

/// What happens to what no rule allows or denies.
#[derive(Clone, Copy, Debug, PartialEq, Eq)]
pub enum Mediation {
    /// What no rule allows or denies is refused.
    Enforcing,
    /// What no rule allows or denies is let through and logged.
    Complaining,
}

// The needs that rules cover.
#[derive(Clone, Copy)]
struct Masks {
    // The needs that deny rules cover, and those that audited deny rules do.
    denied: Perms,
    loud: Perms,
    // The needs that allow rules cover, and those that audited allow rules do.
    granted: Perms,
    audited: Perms,
}

// The letters among some needs.
fn letters_among(mask: Perms) -> Perms
    ensures { result.0 ≡ letters_among mask.0 }
{
    mask.intersection(Perms::from_bits_retain(127))
}

// An answer, and how it is logged: with this tag and the letters among these needs, unless these are none.
fn logged(answer: Answer, tag: Tag, mask: Perms) -> Verdict
    ensures { result ≡ logged answer tag mask.0 }
{
    Verdict {
        answer,
        tag: if mask.is_empty() { None } else { Some(tag) },
        mask: letters_among(mask),
    }
}

// The verdict on a request by the needs that rules cover.
fn verdict_by(mediation: Mediation, masks: Masks, request: &Request<'_>) -> Verdict
    ensures { result ≡ verdict_by mediation (request_of request.entry.now) masks.denied.0 masks.loud.0 masks.granted.0 masks.audited.0 }
{
    let allowed = masks.granted.difference(masks.denied);
    let missing = needs(request).difference(masks.denied.union(allowed));
    if !masks.denied.is_empty() {
        return logged(Answer::Deny, Tag::Denied, masks.loud.union(missing));
    }
    if missing.is_empty() {
        return logged(Answer::Allow, Tag::Audit, masks.audited);
    }
    match mediation {
        Mediation::Enforcing => logged(Answer::Refuse, Tag::Denied, missing),
        Mediation::Complaining => logged(Answer::Complain, Tag::Allowed, missing),
    }
}

/// The verdict of rules on a request. `audit` says whether each of the rules is audited, whatever its qualifiers: it is the flag of their profile.
/// It takes no memory, and goes over the rules once; for a file each pattern is matched by itself. To decide many requests, use
/// `ReadySection::decide` of `aa_decide_ready`.
pub fn rules_verdict(
    mediation: Mediation,
    audit: bool,
    rules: &[Rule],
    request: &Request<'_>,
) -> Verdict
    ensures { result ≡ verdict mediation audit rules.now (request_of request.entry.now) }
{
    verdict_by(mediation, masks_of(audit, rules, request), request)
}

/// The verdict on a request for a file by the rules at some places, whose patterns are known to match the file's path while that of no other rule
/// does: no pattern is tried, and the path isn't looked at (`what_matching_rules_decide`). It takes no memory; `O(n)` in the number of places.
pub fn found_verdict(
    mediation: Mediation,
    audit: bool,
    rules: &[Rule],
    places: &[usize],
    request: &Request<'_>,
    owned: bool,
) -> Verdict
    ensures { result ≡ found_verdict mediation audit owned (request_of request.entry.now) (picked rules.now places.now) }
{
    let masks = found_masks(audit, rules, places, needs(request), owned);
    verdict_by(mediation, masks, request)
}

// No needs.
fn no_masks() -> Masks
    ensures denied { result.denied.0 ≡ 0 }
    ensures loud { result.loud.0 ≡ 0 }
    ensures granted { result.granted.0 ≡ 0 }
    ensures audited { result.audited.0 ≡ 0 }
{
    Masks {
        denied: Perms::empty(),
        loud: Perms::empty(),
        granted: Perms::empty(),
        audited: Perms::empty(),
    }
}

// The needs of a request that rules cover.
fn masks_of(audit: bool, rules: &[Rule], request: &Request<'_>) -> Masks
    ensures denied { result.denied.0 ≡ denied (request_of request.entry.now) rules.now }
    ensures loud { result.loud.0 ≡ loud audit (request_of request.entry.now) rules.now }
    ensures granted { result.granted.0 ≡ granted (request_of request.entry.now) rules.now }
    ensures audited { result.audited.0 ≡ audited audit (request_of request.entry.now) rules.now }
{
    let mut masks = no_masks();
    for rule in rules {
        masks = with_rule(masks, audit, rule, request);
    }
    masks
}

// The needs that the rules at some places cover, whose patterns match the path.
fn found_masks(audit: bool, rules: &[Rule], places: &[usize], needs: Perms, owned: bool) -> Masks
    ensures denied { result.denied.0 ≡ found_mask needs.0 owned denies 0 (picked rules.now places.now) }
    ensures loud { result.loud.0 ≡ found_mask needs.0 owned (denies_aloud audit) 0 (picked rules.now places.now) }
    ensures granted { result.granted.0 ≡ found_mask needs.0 owned allows 0 (picked rules.now places.now) }
    ensures audited { result.audited.0 ≡ found_mask needs.0 owned (allows_aloud audit) 0 (picked rules.now places.now) }
{
    let mut masks = no_masks();
    let mut rest = places;
    while let [place, behind @ ..] = rest {
        if let Some(rule) = rules.get(*place) {
            masks = with_covered(masks, audit, rule, covers_found(rule, needs, owned));
        }
        rest = behind;
    }
    masks
}

// The needs with those of one more rule.
fn with_rule(masks: Masks, audit: bool, rule: &Rule, request: &Request<'_>) -> Masks
    ensures denied { result.denied.0 ≡ with_rule (request_of request.entry.now) denies masks.denied.0 rule.now }
    ensures loud { result.loud.0 ≡ with_rule (request_of request.entry.now) (denies_aloud audit) masks.loud.0 rule.now }
    ensures granted { result.granted.0 ≡ with_rule (request_of request.entry.now) allows masks.granted.0 rule.now }
    ensures audited { result.audited.0 ≡ with_rule (request_of request.entry.now) (allows_aloud audit) masks.audited.0 rule.now }
{
    with_covered(masks, audit, rule, covers(request, rule))
}

// The needs with those that one more rule covers.
fn with_covered(masks: Masks, audit: bool, rule: &Rule, covered: Perms) -> Masks
    ensures denied { result.denied.0 ≡ put_if denies masks.denied.0 covered.0 rule.now }
    ensures loud { result.loud.0 ≡ put_if (denies_aloud audit) masks.loud.0 covered.0 rule.now }
    ensures granted { result.granted.0 ≡ put_if allows masks.granted.0 covered.0 rule.now }
    ensures audited { result.audited.0 ≡ put_if (allows_aloud audit) masks.audited.0 covered.0 rule.now }
{
    let mut masks = masks;
    if denies(rule) {
        masks.denied = masks.denied.union(covered);
        if is_audited(audit, rule) {
            masks.loud = masks.loud.union(covered);
        }
    } else {
        masks.granted = masks.granted.union(covered);
        if is_audited(audit, rule) {
            masks.audited = masks.audited.union(covered);
        }
    }
    masks
}

// The needs of a request for a file that a rule covers whose pattern matches the path.
fn covers_found(rule: &Rule, needs: Perms, owned: bool) -> Perms
    ensures { result.0 ≡ covers_found needs.0 owned rule.now }
{
    match rule {
        Rule::File(rule) => {
            if !rule.owner || owned {
                needs.intersection(covered_by_file(rule))
            } else {
                Perms::empty()
            }
        }
        _ => Perms::empty(),
    }
}
