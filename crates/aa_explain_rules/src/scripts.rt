//! The rule that the start of a script lacks.

ghost use Rattle.std.specs.Prelude.{◌≡◌, IfOk};
ghost use Rattle.aa_profile_data.specs.SeenRequests.{request_of};
ghost use Rattle.aa_explain_rules.specs.Asked.{rules_of};
ghost use Rattle.aa_explain_rules.specs.Missing.{lacked};
ghost use Rattle.aa_explain_rules.specs.Scripts.{lacks_reading, script_rule, with_reading};

use crate::asked::AskedRules;
use crate::missing::{lacked, missing_rule};
use aa_profile_data::{Perms, Request, Rule};
use bitflags::Flags;
use std::alloc::{AllocError, Global};

// The request, for reading the file as well.
fn with_reading<'a>(request: &Request<'a>) -> Request<'a>
    ensures { request_of result ≡ with_reading (request_of request.entry.now) }
{
    match request {
        Request::File { needs, owned, path } => Request::File {
            needs: needs.union(Perms::READ),
            owned: *owned,
            path,
        },
        Request::Cap(number) => Request::Cap(*number),
        Request::Net { domain, kind } => Request::Net {
            domain: *domain,
            kind: *kind,
        },
    }
}

// What a request lacks by some rules.
fn lacked_by(
    alloc: Global,
    rules: AskedRules<'_>,
    request: &Request<'_>,
) -> Result<Perms, AllocError>
    ensures { IfOk result (λ needs. needs.0 ≡ lacked (request_of request.entry.now) (rules_of rules.entry)) }
{
    let places = rules.concerned(alloc, request)?;
    Ok(lacked(request, rules.as_slice(), &places))
}

// Whether a request lacks the start of a program, and lacks reading it, for which it doesn't ask, as a script would need.
fn lacks_reading(
    alloc: Global,
    rules: AskedRules<'_>,
    request: &Request<'_>,
) -> Result<bool, AllocError>
    ensures { IfOk result (λ more. more ≡ lacks_reading (request_of request.entry.now) (rules_of rules.entry)) }
{
    let needs = lacked_by(alloc, rules, request)?;
    if !needs.contains(Perms::EXEC) || needs.contains(Perms::READ) {
        return Ok(false);
    }
    let more = lacked_by(alloc, rules, &with_reading(request))?;
    Ok(more.contains(Perms::READ))
}

/// The rule that a request lacks where the program that it starts is a script, if that differs from `missing_rule`: the interpreter of a script
/// reads it, under the profile that starts it, so this rule allows reading as well. `None` where the start of a program isn't missing, where reading
/// is allowed or asked for already, and where a rule denies it.
///
/// # Errors
///
/// Where memory runs out.
pub fn script_rule(
    alloc: Global,
    rules: AskedRules<'_>,
    request: &Request<'_>,
) -> Result<Option<Rule>, AllocError>
    ensures { IfOk result (λ rule. rule ≡ script_rule (request_of request.entry.now) (rules_of rules.entry)) }
{
    if !lacks_reading(alloc, rules, request)? {
        return Ok(None);
    }
    missing_rule(alloc, rules, &with_reading(request))
}
