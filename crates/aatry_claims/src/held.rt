//! Whether the claim holds for who was asked about.

ghost use Rattle.std.specs.Prelude.{◌≡◌};
ghost use Rattle.aatry_claims.specs.Sentences.{is_held, is_undecided, rules_hold};

use crate::found::Finding;
use aa_explain_paths::PathAnswer;

// Whether the claim holds by the rules.
fn rules_hold(answer: &PathAnswer) -> bool
    ensures { result ≡ rules_hold answer.now }
{
    match answer {
        PathAnswer::Holds(_) => true,
        PathAnswer::Fails(_) | PathAnswer::TooMany => false,
    }
}

/// Whether the claim holds for who was asked about.
pub fn is_held(finding: &Finding) -> bool
    ensures { result ≡ is_held finding.now }
{
    match finding {
        Finding::Absent => false,
        Finding::ByRules(answer) => rules_hold(answer),
    }
}

/// Whether the claim is undecided for who was asked about, since there were too many paths.
pub fn is_undecided(finding: &Finding) -> bool
    ensures { result ≡ is_undecided finding.now }
{
    match finding {
        Finding::ByRules(PathAnswer::TooMany) => true,
        Finding::ByRules(PathAnswer::Holds(_) | PathAnswer::Fails(_)) | Finding::Absent => false,
    }
}
