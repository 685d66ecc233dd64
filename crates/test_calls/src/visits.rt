//! How many visits a request takes that a pattern of many splits almost matches.

use crate::given::{files, last_profile};
use aa_decide::{Answer, Mediation, Ready, ReadySection, Request, Steps};
use aa_profile::Perms;
use std::alloc::Global;

// A profile of which such a pattern is the one rule and the one attachment.
const TEXT: &[u8] = b"profile p /*a*a*a*a*a*a*b { /*a*a*a*a*a*a*b r, }";

// A slash and so many letters.
fn path_of(alloc: Global, letters: usize) -> Option<Vec<u8>> {
    let mut path = Vec::from_slice(alloc, b"/").ok()?;
    for _ in 0..letters {
        path.push(b'a').ok()?;
    }
    Some(path)
}

// The profile, made ready.
fn made_ready(alloc: Global) -> Option<Ready> {
    let files = files(alloc, &[(b"p", TEXT)])?;
    let profile = last_profile(alloc, &files, b"p")?;
    Ready::build(alloc, profile).ok()
}

// Whether steps are as many as such a path takes at least, and at most one for each state at each byte and at the end.
fn are_many(steps: &Steps, states: usize) -> bool {
    let most = (states as u128).saturating_mul(4_002);
    27_000 <= steps.count() && steps.count() <= most
}

// Whether the profile refuses the path, and takes many visits for that.
fn refuses(alloc: Global, section: ReadySection<'_>, path: &[u8]) -> Option<bool> {
    let mut steps = Steps::new();
    let request = Request::File {
        needs: Perms::READ,
        owned: false,
        path,
    };
    let verdict = section.decide(alloc, Mediation::Enforcing, &request, &mut steps);
    Some(verdict.ok()?.answer == Answer::Refuse && are_many(&steps, section.states(alloc).ok()?))
}

// Whether the path matches no attachment, and takes many visits for that.
fn is_unattached(alloc: Global, section: ReadySection<'_>, path: &[u8]) -> Option<bool> {
    let mut steps = Steps::new();
    let found = section.matching_attachments(alloc, path, &mut steps);
    Some(found.ok()?.is_empty() && are_many(&steps, section.states(alloc).ok()?))
}

// Whether the states are few, and the visits many.
fn visits_many(alloc: Global, ready: &Ready, path: &[u8]) -> Option<bool> {
    let section = ready.section(None);
    let is_refused = refuses(alloc, section, path)?;
    let is_unattached = is_unattached(alloc, section, path)?;
    Some(section.states(alloc).ok()? <= 32 && is_refused && is_unattached)
}

fn takes_many(alloc: Global) -> Option<bool> {
    let path = path_of(alloc, 4_000)?;
    let ready = made_ready(alloc)?;
    visits_many(alloc, &ready, &path)
}

#[test]
fn a_pattern_of_many_splits_takes_many_visits(rt: HostRuntime) {
    assert!(rt; takes_many(rt.alloc()) == Some(true));
}
