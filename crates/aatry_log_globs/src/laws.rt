//! What holds of wider patterns, as a law over the definitions that the calls are proved to follow.

ghost use Rattle.std.specs.Prelude.{◌≡◌, [], ℕ, length, List, Some, take, true};
ghost use Rattle.aa_glob_syntax.specs.Matching.{matches};
ghost use Rattle.aa_glob_syntax.specs.Reading.{HasNoFirstFault, items_of};
ghost use Rattle.aatry_log_globs.specs.Laws.{expanded};
ghost use Rattle.aatry_log_globs.specs.Variables.{bytes_of, front_parts};
ghost use Rattle.aatry_log_globs.specs.Widening.{wider};

use aa_glob_pattern::matching_is_by_splits;

/// What is offered is wider: with what the path has in place of each variable, the wider pattern for a path reads as one that matches the path, if
/// it has none of the faults that are reported first. Where there is no variable in it, that is the pattern itself. What variables stand for is what
/// the path begins with.
pub fn what_is_offered_is_wider()
    ensures paths_match { (path : List ℕ) → HasNoFirstFault (expanded path) → matches (items_of (expanded path)) path ≡ true }
    ensures without_variables { (path pattern : List ℕ)
        → front_parts path ≡ [] → wider path ≡ Some pattern → HasNoFirstFault pattern → matches (items_of pattern) path ≡ true }
    ensures variables_stand_for_the_beginning { (path : List ℕ) → take (length (bytes_of (front_parts path))) path ≡ bytes_of (front_parts path) }
{
    matching_is_by_splits();
}
