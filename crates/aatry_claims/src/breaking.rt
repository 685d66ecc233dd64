//! Claims by words, and the path that breaks them.

ghost use Rattle.std.specs.Prelude.{◌≡◌, option_map};
ghost use Rattle.aa_explain_paths.specs.Answers.{seen_breaking};
ghost use Rattle.aatry_claims.specs.Claimed.{breaking_of};

use crate::found::Finding;
use crate::words::PathWords;
use aa_explain_paths::{Breaking, Claim, PathAnswer};

/// A claim, by its words.
#[derive(Clone, Copy)]
pub struct Claimed<'a> {
    /// The claim.
    pub claim: Claim,
    /// The words.
    pub words: PathWords<'a>,
}

/// The path that breaks the claim, if one was found.
pub fn breaking_of(finding: &Finding) -> Option<&Breaking>
    ensures { option_map (λ breaking. seen_breaking breaking.now) result ≡ breaking_of finding.now }
{
    match finding {
        Finding::ByRules(PathAnswer::Fails(breaking)) => Some(breaking),
        Finding::ByRules(PathAnswer::Holds(_) | PathAnswer::TooMany) | Finding::Absent => None,
    }
}
