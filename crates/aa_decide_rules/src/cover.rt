//! What a request needs, and what a rule covers of it.

ghost use Rattle.std.specs.Prelude.{◌≡◌};
ghost use Rattle.aa_profile_data.specs.SeenRequests.{request_of};
ghost use Rattle.aa_decide_rules.specs.Verdict.{applies, covered_by, covered_by_file, covers, denies, is_audited, needs, the_need};

use aa_profile_data::{FileRule, Perms, Request, Rule};
use bitflags::Flags;

// The need of a request that isn't for a file: its only one, and no letter.
fn the_need() -> Perms
    ensures { result.0 ≡ the_need }
{
    Perms::from_bits_retain(128)
}

/// What a request needs: for a file its letters, and for any other request its only need, which is no letter.
pub fn needs(request: &Request<'_>) -> Perms
    ensures { result.0 ≡ needs (request_of request.entry.now) }
{
    match request {
        Request::File { needs, .. } => *needs,
        Request::Cap(_) => the_need(),
        Request::Net { .. } => the_need(),
    }
}

/// Whether a rule applies to a request: its pattern matches the path, and it hasn't `owner` where the file isn't owned; or it covers the capability
/// or the sockets. It takes no memory; for a file it costs what `Pattern::matches` does.
pub fn applies(request: &Request<'_>, rule: &Rule) -> bool
    ensures { result ≡ applies (request_of request.entry.now) rule.now }
{
    match (request, rule) {
        (Request::File { owned, path, .. }, Rule::File(rule)) => {
            rule.pattern.matches(path) && (!rule.owner || *owned)
        }
        (Request::Cap(number), Rule::Cap(rule)) => rule.covers(*number),
        (Request::Net { domain, kind }, Rule::Net(rule)) => rule.covers(*domain, *kind),
        _ => false,
    }
}

/// The needs that a rule on files covers: those of its letters, and `x` where it has an exec word.
pub fn covered_by_file(rule: &FileRule) -> Perms
    ensures { result.0 ≡ covered_by_file rule.now }
{
    let covered = rule.access.covered();
    if rule.exec.is_some() {
        covered.union(Perms::EXEC)
    } else {
        covered
    }
}

// The needs that a rule covers.
fn covered_by(rule: &Rule) -> Perms
    ensures { result.0 ≡ covered_by rule.now }
{
    match rule {
        Rule::File(rule) => covered_by_file(rule),
        Rule::Cap(_) => the_need(),
        Rule::Net(_) => the_need(),
        Rule::Other(_) => Perms::empty(),
    }
}

/// The needs of a request that a rule covers: none where it doesn't apply. It costs what `applies` does.
pub fn covers(request: &Request<'_>, rule: &Rule) -> Perms
    ensures { result.0 ≡ covers (request_of request.entry.now) rule.now }
{
    if applies(request, rule) {
        needs(request).intersection(covered_by(rule))
    } else {
        Perms::empty()
    }
}

/// Whether a rule denies what it covers.
pub fn denies(rule: &Rule) -> bool
    ensures { result ≡ denies rule.now }
{
    match rule {
        Rule::File(rule) => rule.deny,
        Rule::Cap(rule) => rule.deny,
        Rule::Net(rule) => rule.deny,
        Rule::Other(rule) => rule.deny,
    }
}

/// Whether a rule is audited, by its own qualifier or by the flag of its profile.
pub fn is_audited(audit: bool, rule: &Rule) -> bool
    ensures { result ≡ is_audited audit rule.now }
{
    match rule {
        Rule::File(rule) => audit || rule.audit,
        Rule::Cap(rule) => audit || rule.audit,
        Rule::Net(rule) => audit || rule.audit,
        Rule::Other(rule) => audit || rule.audit,
    }
}
