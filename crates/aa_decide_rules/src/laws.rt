//! Properties of verdicts, as laws over the definitions that `decide` is proved to follow.

ghost use Rattle.std.specs.Prelude.{◌≡◌, ℕ, Bool, List, true, false, ◌∷◌};
ghost use Rattle.std.specs.List.Sorted.{IsStrictlyIncreasing};
ghost use Rattle.aa_profile_data.specs.Request.{ForFile, Request};
ghost use Rattle.aa_profile_data.specs.Matching.{AreMatchingRules};
ghost use Rattle.aa_profile_data.specs.Picked.{picked};
ghost use Rattle.aa_profile_data.specs.SameRules.{HaveSameRules};
ghost use Rattle.aa_profile_data.specs.declared.profile.Rule.{Rule};
ghost use Rattle.aa_decide_rules.specs.LogLines.{log_line};
ghost use Rattle.aa_decide_rules.specs.Found.{found_verdict};
ghost use Rattle.aa_decide_rules.specs.Verdict.{denies, verdict};
ghost use Rattle.aa_decide_rules.specs.VerdictLaws.{in_complain};
ghost use Rattle.aa_decide_rules.specs.declared.judgement.Mediation.{Mediation};
ghost use Rattle.aa_decide_rules.specs.declared.judgement.Mediation.TheVariants.{Complaining, Enforcing};
ghost use Rattle.aa_decide_rules.specs.declared.verdict.Answer.TheVariants.{Allow};

use aa_profile_data::which_rules_match;

/// A verdict on a file depends on the rules whose pattern matches its path, and on nothing else of the path: without any pattern being tried, these
/// say by themselves what all rules say.
pub fn what_matching_rules_decide()
    ensures { (mediation : Mediation) (audit : Bool) (rules : List Rule) (letters : ℕ) (owned : Bool) (path places : List ℕ)
        → AreMatchingRules rules path places
        → IsStrictlyIncreasing places
        → found_verdict mediation audit owned (ForFile letters owned path) (picked rules places) ≡ verdict mediation audit rules (ForFile letters owned path) }
{
    which_rules_match();
}

/// In complain mode what enforce mode refuses is allowed and logged with the same needs, and nothing else changes: what is denied is denied there
/// too. The order of the rules changes no answer, no tag, no mask and no line, nor does a repeated rule. A further allow rule takes away nothing
/// that is allowed. A further deny rule allows nothing that wasn't.
pub fn what_rules_decide()
    ensures complain_mode_lets_through_and_logs { (audit : Bool) (rules : List Rule) (request : Request)
        → verdict Complaining audit rules request ≡ in_complain (verdict Enforcing audit rules request) }
    ensures order_changes_no_verdict { (mediation : Mediation) (audit : Bool) (rules others : List Rule) (request : Request)
        → HaveSameRules rules others
        → verdict mediation audit rules request ≡ verdict mediation audit others request }
    ensures order_changes_no_line { (asker : List ℕ) (mediation : Mediation) (audit : Bool) (rules others : List Rule) (request : Request)
        → HaveSameRules rules others
        → log_line asker request (verdict mediation audit rules request) ≡ log_line asker request (verdict mediation audit others request) }
    ensures allow_rule_leaves_what_is_allowed { (mediation : Mediation) (audit : Bool) (rule : Rule) (rules : List Rule) (request : Request)
        → denies rule ≡ false
        → (verdict mediation audit rules request).answer ≡ Allow
        → (verdict mediation audit (rule ∷ rules) request).answer ≡ Allow }
    ensures deny_rule_allows_nothing_new { (mediation : Mediation) (audit : Bool) (rule : Rule) (rules : List Rule) (request : Request)
        → denies rule ≡ true
        → (verdict mediation audit (rule ∷ rules) request).answer ≡ Allow
        → (verdict mediation audit rules request).answer ≡ Allow }
{}
