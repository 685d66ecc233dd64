//! Capabilities and sockets, and how the answers to requests for them change.

ghost use Rattle.std.specs.Prelude.{◌≡◌, ◌++◌, ◌<◌, IfOk, OnOk};
ghost use Rattle.aa_explain_changes.specs.Sides.{seen_sides};
ghost use Rattle.aa_profile_data.specs.SeenRequests.{request_of as seen_request};
ghost use Rattle.aatry_path_changes.specs.Others.{answers_of, capability_changes, change_of, changed_by, changed_if, has_gained, has_lost, is_gained, is_lost, other_changes, request_of, socket_changes, type_changes};

use aa_decide_rules::{Mediation, rules_verdict};
use aa_explain_changes::{Answers, Change, Sides, change_between};
use aa_profile_data::Request;
use std::alloc::{AllocError, Global};

/// What can be asked for that is no file.
#[derive(Clone, Copy)]
pub enum Other {
    /// The capability of a number.
    Capability(u8),
    /// Sockets of the domain of a number, and of the type of another.
    Sockets(u8, u8),
}

/// What is answered otherwise of what is no file.
#[derive(Clone, Copy)]
pub struct OtherChange {
    /// What is asked for.
    pub other: Other,
    /// How the answer changes.
    pub change: Change,
    /// The answers.
    pub answers: Answers,
}

// The request for it.
fn request_of(other: Other) -> Request<'static>
    ensures { seen_request result ≡ request_of other }
{
    match other {
        Other::Capability(number) => Request::Cap(number),
        Other::Sockets(domain, kind) => Request::Net { domain, kind },
    }
}

// What both sides answer to a request, each by its rules in enforce mode.
fn answers_to(sides: Sides<'_>, request: &Request<'_>) -> Answers
    ensures { result ≡ answers_of (seen_sides sides.entry) (seen_request request.entry.now) }
{
    Answers {
        old: rules_verdict(
            Mediation::Enforcing,
            sides.old.audit,
            sides.old.rules,
            request,
        ),
        new: rules_verdict(
            Mediation::Enforcing,
            sides.new.audit,
            sides.new.rules,
            request,
        ),
    }
}

// Appends what is asked for to others, if the answer changes, by what is answered.
fn push_by(
    quiet: bool,
    other: Other,
    answers: Answers,
    found: &mut Vec<OtherChange>,
) -> Result<(), AllocError>
    ensures { OnOk result (found.new.items ≡ found.old.items ++ changed_by quiet other answers) }
{
    let change = change_between(quiet, answers.old, answers.new);
    if change.is_change() {
        found.push(OtherChange {
            other,
            change,
            answers,
        })?;
    }
    Ok(())
}

// The same.
fn push_if(sides: Sides<'_>, other: Other, found: &mut Vec<OtherChange>) -> Result<(), AllocError>
    ensures { OnOk result (found.new.items ≡ found.old.items ++ changed_if (seen_sides sides.entry) other) }
{
    let request = request_of(other);
    let answers = answers_to(sides, &request);
    push_by(sides.quiet, other, answers, found)?;
    Ok(())
}

// The same of the capabilities.
fn push_capabilities(sides: Sides<'_>, found: &mut Vec<OtherChange>) -> Result<(), AllocError>
    ensures { OnOk result (found.new.items ≡ found.old.items ++ capability_changes (seen_sides sides.entry) 41) }
{
    for number in 0..41 {
        push_if(sides, Other::Capability(number), found)?;
    }
    Ok(())
}

// The same of the sockets of a domain.
fn push_types(sides: Sides<'_>, domain: u8, found: &mut Vec<OtherChange>) -> Result<(), AllocError>
    ensures { OnOk result (found.new.items ≡ found.old.items ++ type_changes (seen_sides sides.entry) domain 6) }
{
    for kind in 0..6 {
        push_if(sides, Other::Sockets(domain, kind), found)?;
    }
    Ok(())
}

// The same of all sockets.
fn push_sockets(sides: Sides<'_>, found: &mut Vec<OtherChange>) -> Result<(), AllocError>
    ensures { OnOk result (found.new.items ≡ found.old.items ++ socket_changes (seen_sides sides.entry) 44) }
{
    for domain in 0..44 {
        push_types(sides, domain, found)?;
    }
    Ok(())
}

/// What is answered otherwise of all capabilities and of all sockets, in the order of their numbers.
///
/// # Errors
///
/// Where memory runs out.
pub fn other_changes(alloc: Global, sides: Sides<'_>) -> Result<Vec<OtherChange>, AllocError>
    ensures { IfOk result (λ found. found.items ≡ other_changes (seen_sides sides.entry)) }
{
    let mut found = Vec::new(alloc);
    push_capabilities(sides, &mut found)?;
    push_sockets(sides, &mut found)?;
    Ok(found)
}

/// Whether something is allowed now that wasn't.
pub fn is_gained(change: Change) -> bool
    ensures { result ≡ is_gained change }
{
    match change {
        Change::Gained => true,
        Change::Same | Change::Lost | Change::Otherwise => false,
    }
}

/// Whether something isn't allowed any more that was.
pub fn is_lost(change: Change) -> bool
    ensures { result ≡ is_lost change }
{
    match change {
        Change::Lost => true,
        Change::Same | Change::Gained | Change::Otherwise => false,
    }
}

/// Whether one of these is allowed now that wasn't.
pub fn has_gained(changes: &[OtherChange]) -> bool
    ensures { result ≡ has_gained changes.now }
{
    let mut rest = changes;
    while let [change, behind @ ..] = rest {
        if is_gained(change.change) {
            return true;
        }
        rest = behind;
    }
    false
}

/// Whether one of these isn't allowed any more that was.
pub fn has_lost(changes: &[OtherChange]) -> bool
    ensures { result ≡ has_lost changes.now }
{
    let mut rest = changes;
    while let [change, behind @ ..] = rest {
        if is_lost(change.change) {
            return true;
        }
        rest = behind;
    }
    false
}
