//! Properties of the rules that match a path, and of those that conflict, as laws over the definitions.

ghost use Rattle.std.specs.Prelude.{◌≡◌, ◌↔◌, ℕ, All, List, true};
ghost use Rattle.std.specs.List.{filter};
ghost use Rattle.std.specs.List.Sorted.{IsStrictlyIncreasing};
ghost use Rattle.aa_glob_syntax.specs.Patterns.{AreMatching};
ghost use Rattle.aa_profile_data.specs.ConflictLaws.{HasReadPattern, NoneConflict};
ghost use Rattle.aa_profile_data.specs.Conflicts.{Conflict, agree, conflict};
ghost use Rattle.aa_profile_data.specs.FileRules.{file_patterns, places_from};
ghost use Rattle.aa_profile_data.specs.Matching.{AreMatchingRules, is_matching};
ghost use Rattle.aa_profile_data.specs.Picked.{picked};
ghost use Rattle.aa_profile_data.specs.SameRules.{same_rule};
ghost use Rattle.aa_profile_data.specs.declared.profile.Rule.{Rule};

use aa_glob_pattern::how_overlaps_are_tested;

/// The rules at the places of the rules that match a path, in rising order, are those rules in their order. Given the places of the patterns of file
/// rules that match a path, what is at these places in the list of the file rules' places are the places of the rules that match, and these rise as
/// well.
pub fn which_rules_match()
    ensures places_pick_the_matching_rules { (rules : List Rule) (path places : List ℕ)
        → AreMatchingRules rules path places
        → IsStrictlyIncreasing places
        → picked rules places ≡ filter (is_matching path) rules }
    ensures patterns_found_are_of_matching_rules { (rules : List Rule) (path found : List ℕ)
        → AreMatching (file_patterns rules) path found
        → AreMatchingRules rules path (picked (places_from 0 rules) found) }
    ensures picked_places_rise { (rules : List Rule) (found : List ℕ)
        → IsStrictlyIncreasing found
        → IsStrictlyIncreasing (picked (places_from 0 rules) found) }
{}

/// Two rules whose patterns were read conflict, as the test `conflict` says, exactly where they lead to different profiles with one rank, and some
/// path matches both. Rules agree exactly where none of them conflicts with an earlier one.
pub fn how_conflicts_are_tested()
    ensures conflict_is_exact { (one other : Rule) → HasReadPattern one → HasReadPattern other → (conflict one other ≡ true ↔ Conflict one other) }
    ensures agree_is_exact { (rules : List Rule) → All HasReadPattern rules → (agree rules ≡ true ↔ NoneConflict rules) }
{
    how_overlaps_are_tested();
}

/// Rules are the same exactly where they are equal.
pub fn when_rules_are_same()
    ensures { (one other : Rule) → (same_rule one other ≡ true ↔ one ≡ other) }
{}
