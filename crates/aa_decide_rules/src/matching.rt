//! The rules on files whose pattern matches a path, each tried by itself.

ghost use Rattle.std.specs.Prelude.{◌≡◌, IfOk};
ghost use Rattle.std.specs.List.Sorted.{IsStrictlyIncreasing};
ghost use Rattle.aa_profile_data.specs.Matching.{AreMatchingRules, is_matching};
ghost use Rattle.aa_decide_rules.specs.code.MatchingPlaces.{matching_from};

use aa_profile_data::Rule;
use std::alloc::{AllocError, Global};

/// Whether a rule is one on files and its pattern matches a path (docs/policy.md, "Patterns"), whoever owns the file. It takes no memory, and costs
/// what `Pattern::matches` does.
pub fn is_matching(path: &[u8], rule: &Rule) -> bool
    ensures { result ≡ is_matching path.now rule.now }
{
    match rule {
        Rule::File(rule) => rule.pattern.matches(path),
        _ => false,
    }
}

// The places of those rules.
fn matching_places(alloc: Global, rules: &[Rule], path: &[u8]) -> Result<Vec<usize>, AllocError>
    ensures { IfOk result (λ places. places.items ≡ matching_from path.now 0 rules.now) }
{
    let mut found = Vec::new(alloc);
    let mut place: usize = 0;
    let mut rest = rules;
    while let [rule, behind @ ..] = rest {
        if is_matching(path, rule) {
            found.push(place)?;
        }
        place += 1;
        rest = behind;
    }
    Ok(found)
}

/// The places (indices) of the rules on files whose pattern matches a path, in rising order. Each rule is tried by itself, so nothing has to be
/// built before. An automaton (`aa_decide_ready`) answers many questions to the same rules sooner.
///
/// # Errors
///
/// Where memory runs out.
pub fn matching_rules(alloc: Global, rules: &[Rule], path: &[u8]) -> Result<Vec<usize>, AllocError>
    ensures found { IfOk result (λ places. AreMatchingRules rules.now path.now places.items) }
    ensures rise { IfOk result (λ places. IsStrictlyIncreasing places.items) }
{
    matching_places(alloc, rules, path)
}
