//! Rules that are near a request.

ghost use Rattle.std.specs.Prelude.{◌≡◌};
ghost use Rattle.aa_profile_data.specs.SeenRequests.{request_of};
ghost use Rattle.aa_explain_rules.specs.Told.{is_near, lets_at};

use aa_decide_rules::covers;
use aa_profile_data::{Request, Rule};
use bitflags::Flags;

// Whether a rule is an allow rule on files whose pattern matches the path that is asked for.
fn lets_at(request: &Request<'_>, rule: &Rule) -> bool
    ensures { result ≡ lets_at (request_of request.entry.now) rule.now }
{
    match (request, rule) {
        (Request::File { path, .. }, Rule::File(rule)) => !rule.deny && rule.pattern.matches(path),
        _ => false,
    }
}

/// Whether a rule allows something at the path that is asked for, but nothing of what is asked for. It takes no memory.
pub fn is_near(request: &Request<'_>, rule: &Rule) -> bool
    ensures { result ≡ is_near (request_of request.entry.now) rule.now }
{
    lets_at(request, rule) && covers(request, rule).is_empty()
}
