//! The attachment pattern that fits a path best.

ghost use Rattle.std.specs.Prelude.{◌≡◌};
ghost use Rattle.std.specs.Option.{option_map};
ghost use Rattle.aa_explain.specs.Candidates.{best_pattern, with_rank};

use aa_decide_rules::{rank, rank_of_best};
use aa_glob_pattern::Pattern;

// The first of some patterns that has this rank.
fn with_rank<'a>(best: u128, path: &[u8], patterns: &'a [Pattern]) -> Option<&'a Pattern>
    ensures { option_map (λ pattern. pattern.now) result ≡ with_rank best path.now patterns.now }
{
    let mut rest = patterns;
    while let [pattern, behind @ ..] = rest {
        if rank(path, pattern) == best {
            return Some(pattern);
        }
        rest = behind;
    }
    None
}

/// The first of some patterns that fit a path best, if one matches it. Each is matched by itself; it takes no memory.
pub fn best_pattern<'a>(path: &[u8], patterns: &'a [Pattern]) -> Option<&'a Pattern>
    ensures { option_map (λ pattern. pattern.now) result ≡ best_pattern path.now patterns.now }
{
    match rank_of_best(path, patterns) {
        0 => None,
        best => with_rank(best, path, patterns),
    }
}
