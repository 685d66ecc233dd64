//! The rules by which a request is decided, and which of them concern it.

ghost use Rattle.std.specs.Prelude.{◌≡◌, IfOk};
ghost use Rattle.aa_profile_data.specs.SeenRequests.{request_of};
ghost use Rattle.aa_explain_rules.specs.Asked.{audits_of, concerned, concerns, rules_of};

use aa_decide_ready::ReadySection;
use aa_decide_rules::{applies, is_matching};
use aa_profile_data::{Request, Rule};
use std::alloc::{AllocError, Global};

/// The rules by which a request is decided.
#[derive(Clone, Copy)]
pub enum AskedRules<'a> {
    /// Rules that weren't made ready: each pattern is matched by itself.
    Listed {
        /// Whether each of them is audited, whatever its qualifiers: the flag of their profile.
        audit: bool,
        /// The rules, in their order.
        rules: &'a [Rule],
    },
    /// The rules of a loaded profile, or of a child or hat of it: its automaton finds the patterns that match, where it is built.
    Loaded(ReadySection<'a>),
}

// Whether a rule concerns a request.
fn concerns(request: &Request<'_>, rule: &Rule) -> bool
    ensures { result ≡ concerns (request_of request.entry.now) rule.now }
{
    match request {
        Request::File { path, .. } => is_matching(path, rule),
        Request::Cap(_) => applies(request, rule),
        Request::Net { .. } => applies(request, rule),
    }
}

// The places of those of some rules that concern a request. Each rule is tried by itself.
fn concerned_listed(
    alloc: Global,
    rules: &[Rule],
    request: &Request<'_>,
) -> Result<Vec<usize>, AllocError>
    ensures { IfOk result (λ places. places.items ≡ concerned (request_of request.entry.now) rules.now) }
{
    let mut found = Vec::new(alloc);
    let mut place = 0;
    let mut rest = rules;
    while let [rule, behind @ ..] = rest {
        if concerns(request, rule) {
            found.push(place)?;
        }
        place += 1;
        rest = behind;
    }
    Ok(found)
}

// The places of those rules of a loaded profile, or of a child or hat of it, that concern a request.
fn concerned_loaded(
    alloc: Global,
    section: ReadySection<'_>,
    request: &Request<'_>,
) -> Result<Vec<usize>, AllocError>
    ensures { IfOk result (λ places. places.items ≡ concerned (request_of request.entry.now) section.entry.rules.now) }
{
    match request {
        Request::File { path, .. } => section.matching_once(alloc, path),
        Request::Cap(_) => concerned_listed(alloc, section.rules, request),
        Request::Net { .. } => concerned_listed(alloc, section.rules, request),
    }
}

impl<'a> AskedRules<'a> {
    /// The rules themselves, in their order. It takes no memory.
    pub fn as_slice(self) -> &'a [Rule]
        ensures { result.now ≡ rules_of self.entry }
    {
        match self {
            AskedRules::Listed { rules, .. } => rules,
            AskedRules::Loaded(section) => section.rules,
        }
    }

    /// Whether the flag of their profile audits each of them. It takes no memory.
    pub fn audits(self) -> bool
        ensures { result ≡ audits_of self.entry }
    {
        match self {
            AskedRules::Listed { audit, .. } => audit,
            AskedRules::Loaded(section) => section.audit,
        }
    }

    /// The places (indices) of the rules that concern a request, in their order: those on files whose pattern matches the path that is asked for,
    /// whoever owns the file, or those that cover the capability or the sockets. No other rule takes part in its answer.
    ///
    /// # Errors
    ///
    /// Where memory runs out.
    pub fn concerned(self, alloc: Global, request: &Request<'_>) -> Result<Vec<usize>, AllocError>
        ensures { IfOk result (λ places. places.items ≡ concerned (request_of request.entry.now) (rules_of self.entry)) }
    {
        match self {
            AskedRules::Listed { rules, .. } => concerned_listed(alloc, rules, request),
            AskedRules::Loaded(section) => concerned_loaded(alloc, section, request),
        }
    }
}
