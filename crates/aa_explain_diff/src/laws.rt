//! Properties of sections that are alike, as laws over the definitions that the calls are proved to follow.

ghost use Rattle.std.specs.Prelude.{◌≡◌, ◌<◌, ◌^◌, ℕ, Bool, List, true};
ghost use Rattle.std.specs.List.{All};
ghost use Rattle.aa_decide_rules.specs.Choices.{choice};
ghost use Rattle.aa_decide_rules.specs.Verdict.{verdict};
ghost use Rattle.aa_decide_rules.specs.declared.judgement.Mediation.{Mediation};
ghost use Rattle.aa_explain_diff.specs.Alike.{HaveSameHead};
ghost use Rattle.aa_explain_diff.specs.Features.{are_alike};
ghost use Rattle.aa_explain_diff.specs.Sections.{Section};
ghost use Rattle.aa_profile_data.specs.Request.{Request};
ghost use Rattle.aa_profile_data.specs.ConflictLaws.{HasReadPattern};
ghost use Rattle.aa_profile_data.specs.Conflicts.{agree};
ghost use Rattle.aa_profile_data.specs.SameRules.{HaveSameRules};

use aa_decide_rules::{order_changes_no_choice, what_rules_decide};

/// Two sections each of which has all that the other has have one head and the same rules, and decide alike: whatever is asked, and whatever happens
/// to what the rules don't allow, the verdict is the same, with its tag and its mask, and so is what they say together of the start of a program,
/// where the rules of one agree (as those of a file that was read do), their patterns read, and the path is a list of bytes.
pub fn sections_alike_answer_alike()
    ensures head { (one other : Section) → are_alike one other ≡ true → HaveSameHead one other }
    ensures same_rules { (one other : Section) → are_alike one other ≡ true → HaveSameRules one.rules other.rules }
    ensures same_verdict { (one other : Section) (mediation : Mediation) (request : Request)
        → are_alike one other ≡ true
        → verdict mediation one.audit one.rules request ≡ verdict mediation other.audit other.rules request }
    ensures same_choice { (one other : Section) (owned : Bool) (path : List ℕ)
        → are_alike one other ≡ true
        → agree one.rules ≡ true
        → All HasReadPattern one.rules
        → All (λ b. b < 2 ^ 8) path
        → choice one.audit owned path one.rules ≡ choice other.audit owned path other.rules }
{
    what_rules_decide();
    order_changes_no_choice();
}
