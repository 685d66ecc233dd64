//! Where rules that agree lead, whatever their order, as laws over the definitions.

ghost use Rattle.std.specs.Prelude.{◌≡◌, ◌<◌, ◌^◌, ℕ, Bool, List, true};
ghost use Rattle.std.specs.List.{All};
ghost use Rattle.aa_decide_rules.specs.Choices.{choice};
ghost use Rattle.aa_decide_rules.specs.Laws.{AgreeingRulesLeadOneWay};
ghost use Rattle.aa_profile_data.specs.ConflictLaws.{HasReadPattern};
ghost use Rattle.aa_profile_data.specs.Conflicts.{agree};
ghost use Rattle.aa_profile_data.specs.SameRules.{HaveSameRules};
ghost use Rattle.aa_profile_data.specs.declared.profile.Rule.{Rule};

use aa_glob_pattern::how_overlaps_are_tested;

/// Of rules no two of which conflict, those that dominate among the ones that match a path have one transition: where the first of them leads, all
/// lead. The patterns of such rules read, and the path is a list of bytes.
pub fn where_agreeing_rules_lead()
    ensures { AgreeingRulesLeadOneWay }
{
    how_overlaps_are_tested();
}

/// Rules that agree say the same together, in whatever order and however often they are repeated. The patterns of such rules read, and the path is a
/// list of bytes.
pub fn order_changes_no_choice()
    ensures { (flag owned : Bool) (path : List ℕ) (rules others : List Rule)
        → HaveSameRules rules others
        → agree rules ≡ true
        → All HasReadPattern rules
        → All (λ b. b < 2 ^ 8) path
        → choice flag owned path rules ≡ choice flag owned path others }
{
    where_agreeing_rules_lead();
}
