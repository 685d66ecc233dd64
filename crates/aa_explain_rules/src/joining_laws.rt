//! Properties of joined requests, as laws over the definitions that the calls are proved to follow.

ghost use Rattle.std.specs.Prelude.{◌++◌, ◌≡◌, ◌≢◌, Bool, List, Some, false};
ghost use Rattle.std.specs.List.{All, Contains};
ghost use Rattle.aa_profile_data.specs.Request.{Request};
ghost use Rattle.aa_profile_data.specs.declared.profile.Rule.{Rule};
ghost use Rattle.aa_decide_rules.specs.declared.verdict.Answer.TheVariants.{Allow};
ghost use Rattle.aa_decide_rules.specs.Verdict.{denied, denies, verdict};
ghost use Rattle.aa_decide_rules.specs.declared.judgement.Mediation.{Mediation};
ghost use Rattle.aa_explain_rules.specs.Joined.{AreOfOneThing, IsWithin, joined};
ghost use Rattle.aa_explain_rules.specs.Missing.{lacked, missing_rule};

use crate::laws::what_a_missing_rule_lets;

/// What one rule allows, of requests that are joined. Each of two requests about one thing is within the two joined, and what is within one of these
/// is within the whole. No rule denies something of the two joined where none denies something of either; and where a request lacks something, so
/// does the one that it is within. Then the rule that the whole lacks allows each request that is within it and of which no rule denies something:
/// where that rule, among others that allow something, follows the rules that there are, the request is allowed.
pub fn what_joined_requests_let()
    ensures first_is_within { (one other : Request) → AreOfOneThing one other → IsWithin one (joined one other) }
    ensures second_is_within { (one other : Request) → AreOfOneThing one other → IsWithin other (joined one other) }
    ensures within_stays { (request part whole : Request) → IsWithin request part → IsWithin part whole → IsWithin request whole }
    ensures none_is_denied { (one other : Request) (rules : List Rule)
        → AreOfOneThing one other → denied one rules ≡ 0 → denied other rules ≡ 0
        → denied (joined one other) rules ≡ 0 }
    ensures whole_lacks { (request whole : Request) (rules : List Rule)
        → IsWithin request whole → denied whole rules ≡ 0 → lacked request rules ≢ 0
        → lacked whole rules ≢ 0 }
    ensures its_rule_lets_each { (mediation : Mediation) (flag : Bool) (request whole : Request) (rules more : List Rule) (rule : Rule)
        → IsWithin request whole → denied request rules ≡ 0 → missing_rule whole rules ≡ Some rule
        → All (λ rule. denies rule ≡ false) more → Contains more rule
        → (verdict mediation flag (rules ++ more) request).answer ≡ Allow }
{
    what_a_missing_rule_lets();
}

/// Rules that allow a request by themselves allow it also after other rules, none of which denies something of it.
pub fn what_further_rules_let()
    ensures { (mediation other : Mediation) (flag loud : Bool) (request : Request) (rules further : List Rule)
        → denied request rules ≡ 0 → (verdict other loud further request).answer ≡ Allow
        → (verdict mediation flag (rules ++ further) request).answer ≡ Allow }
{}
