//! Ranks of attachment patterns on a path.

ghost use Rattle.std.specs.Prelude.{◌≡◌, ℕ, List};
ghost use Rattle.aa_decide_rules.specs.Ranks.{best_rank, greater, rank};
ghost use Rattle.aa_decide_rules.specs.code.MatchingRanks.{best_among, matching_rank};
ghost use Rattle.aa_glob_syntax.specs.Patterns.{AreMatching};

use aa_glob_pattern::{LONGEST_PATTERN, Pattern};

// The greater of two ranks.
fn greater(one: u128, other: u128) -> u128
    ensures { result ≡ greater one other }
{
    if one <= other { other } else { one }
}

// The rank of a pattern on a path that it matches.
fn matching_rank(pattern: &Pattern) -> u128
    ensures { result ≡ matching_rank pattern.now }
{
    if pattern.is_exact() {
        LONGEST_PATTERN as u128 + 2
    } else {
        pattern.literal_prefix() as u128 + 1
    }
}

// The greatest rank of the patterns at some places, which match the path.
fn best_among(patterns: &[Pattern], places: &[usize]) -> u128
    ensures { result ≡ best_among patterns.now 0 places.now }
{
    let mut best = 0;
    let mut rest = places;
    while let [place, behind @ ..] = rest {
        if let Some(pattern) = patterns.get(*place) {
            best = greater(best, matching_rank(pattern));
        }
        rest = behind;
    }
    best
}

/// The rank of the best of some patterns on a path, 0 where none matches (docs/policy.md, "Exec and attachment"): a pattern that matches ranks by
/// the length of its literal beginning, in bytes, and an exact one higher than all others. `places` are the places of those that match the path;
/// only these are gone over. It takes no memory.
pub fn best_rank(patterns: &[Pattern], places: &[usize]) -> u128
    ensures { (path : List ℕ) → AreMatching patterns.now path places.now → result ≡ best_rank path patterns.now }
{
    best_among(patterns, places)
}

/// The rank of a pattern on a path: 0 where it doesn't match, and else as in [`best_rank`]. It takes no memory.
pub fn rank(path: &[u8], pattern: &Pattern) -> u128
    ensures { result ≡ rank path.now pattern.now }
{
    if pattern.matches(path) {
        matching_rank(pattern)
    } else {
        0
    }
}

/// The rank of the best of some patterns on a path, as [`best_rank`], where it isn't known which patterns match: each is matched by itself. It takes
/// no memory.
pub fn rank_of_best(path: &[u8], patterns: &[Pattern]) -> u128
    ensures { result ≡ best_rank path.now patterns.now }
{
    let mut best = 0;
    let mut rest = patterns;
    while let [pattern, behind @ ..] = rest {
        best = greater(best, rank(path, pattern));
        rest = behind;
    }
    best
}
