//! The rules that decide an answer, by what they do.

ghost use Rattle.std.specs.Prelude.{◌≡◌, IfOk};
ghost use Rattle.aa_explain_rules.specs.Logged.{does_something, is_denied};
ghost use Rattle.aatry_why_lines.specs.Groups.{does, heading, is_in, places_in};

use aa_explain_rules::ToldRule;
use bitflags::Flags;
use std::alloc::{AllocError, Global};

/// What rules do.
#[derive(Clone, Copy)]
pub enum Group {
    /// They deny what they cover.
    Denying,
    /// They allow what they cover.
    Allowing,
    /// What they do is logged: what they deny, where something is denied, and else what they allow.
    Auditing {
        /// Whether something is denied.
        denied: bool,
    },
}

/// The words over the rules of a group.
pub fn heading(group: Group) -> &'static str
    ensures { result.now ≡ heading group }
{
    match group {
        Group::Denying => "denied by",
        Group::Allowing => "allowed by",
        Group::Auditing { .. } => "audited by",
    }
}

// Whether a rule covers some of the request's needs.
fn does_something(rule: &ToldRule) -> bool
    ensures { result ≡ does_something rule.now }
{
    !rule.covered.is_empty()
}

// Whether what a rule does puts it into a group.
fn does(group: Group, rule: &ToldRule) -> bool
    ensures { result ≡ does group rule.now }
{
    match group {
        Group::Denying => rule.denies,
        Group::Allowing => !rule.denies,
        Group::Auditing { denied: true } => rule.audited && rule.denies,
        Group::Auditing { denied: false } => rule.audited && !rule.denies,
    }
}

/// Whether some of the rules deny some of the request's needs.
pub fn is_denied(told: &[ToldRule]) -> bool
    ensures { result ≡ is_denied told.now }
{
    told.iter().any(|rule| is_in(Group::Denying, rule))
}

// Whether a rule is in a group.
fn is_in(group: Group, rule: &ToldRule) -> bool
    ensures { result ≡ is_in group rule.now }
{
    does_something(rule) && does(group, rule)
}

/// The indexes of the rules of a group, in their order.
///
/// # Errors
///
/// Where memory runs out.
pub fn places_in(alloc: Global, group: Group, told: &[ToldRule]) -> Result<Vec<usize>, AllocError>
    ensures { IfOk result (λ places. places.items ≡ places_in group told.now) }
{
    let mut places = Vec::new(alloc);
    let mut rest = told;
    while let [rule, behind @ ..] = rest {
        if is_in(group, rule) {
            places.push(rule.place)?;
        }
        rest = behind;
    }
    Ok(places)
}
