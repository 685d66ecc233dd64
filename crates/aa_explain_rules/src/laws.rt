//! Properties of the rules that decide an answer, and of those that decide where a program runs, as laws over the definitions that the calls are
//! proved to follow.

ghost use Rattle.std.specs.Prelude.{◌++◌, ◌<◌, ◌==◌, ◌∷◌, ◌≡◌, ◌≢◌, ◌||◌, ◌↔◌, ◌^◌, [], All, Bool, List, Some, false, is_some, not, true, ℕ};
ghost use Rattle.std.specs.List.{list_any};
ghost use Rattle.std.specs.List.Sorted.{IsStrictlyIncreasing};
ghost use Rattle.aa_glob.specs.Laws.{quoted};
ghost use Rattle.aa_glob_syntax.specs.Reading.{HasNoFirstFault};
ghost use Rattle.aa_profile_data.specs.Access.{EXEC, common, has, told_bit};
ghost use Rattle.aa_profile_data.specs.Request.{ForCapability, ForFile, ForSockets, Request};
ghost use Rattle.aa_profile_data.specs.ConflictLaws.{HasReadPattern};
ghost use Rattle.aa_profile_data.specs.Conflicts.{Conflict, agree};
ghost use Rattle.aa_profile_data.specs.Picked.{picked};
ghost use Rattle.aa_profile_data.specs.declared.profile.FileRule.{FileRule};
ghost use Rattle.aa_profile_data.specs.declared.profile.Rule.{Rule};
ghost use Rattle.aa_profile_data.specs.declared.profile.Rule.TheVariants.{File};
ghost use Rattle.aa_profile_data.specs.Kinds.{is_protocol};
ghost use Rattle.aa_decide_rules.specs.declared.verdict.Answer.TheVariants.{Allow};
ghost use Rattle.aa_decide_rules.specs.Choices.{Leads, Missing, choice, denies, dominates, highest};
ghost use Rattle.aa_decide_rules.specs.ExecRules.{exec_rules};
ghost use Rattle.aa_decide_rules.specs.Verdict.{allowed, applies, covers, denied, missing, verdict};
ghost use Rattle.aa_decide_rules.specs.declared.judgement.Mediation.{Mediation};
ghost use Rattle.aa_explain_rules.specs.InTheWay.{in_the_way, is_in_the_way};
ghost use Rattle.aa_explain_rules.specs.Laws.{AreAllWith, but, is_told_to_allow, is_told_to_deny, places_of};
ghost use Rattle.aa_explain_rules.specs.Leading.{chosen_transition, first_transition, leading_places, says};
ghost use Rattle.aa_explain_rules.specs.Logged.{some_is_logged};
ghost use Rattle.aa_explain_rules.specs.Missing.{inherit, lacked, missing_rule};
ghost use Rattle.aa_explain_rules.specs.Narrower.{but_letter, has_letter};
ghost use Rattle.aa_explain_rules.specs.Told.{is_near, near, places_where, told};

use aa_glob::{quoted_text_matches_itself, quoted_text_reads_as_itself};
use aa_profile_data::how_conflicts_are_tested;

/// The rules that are reported are exactly those that apply, and those that are reported as near are exactly those that are, in rising order.
pub fn what_is_told()
    ensures told_are_those_that_apply { (flag : Bool) (request : Request) (rules : List Rule)
        → AreAllWith (applies request) rules (places_of (told flag request rules)) }
    ensures told_rise { (flag : Bool) (request : Request) (rules : List Rule) → IsStrictlyIncreasing (places_of (told flag request rules)) }
    ensures near_are_those_that_are { (request : Request) (rules : List Rule) → AreAllWith (is_near request) rules (near request rules) }
    ensures near_rise { (request : Request) (rules : List Rule) → IsStrictlyIncreasing (near request rules) }
{}

/// The reported rules decide alone: by them the verdict is the same. Without those that are reported to deny nothing is denied, and without those
/// that are reported to allow nothing is allowed.
pub fn what_told_rules_decide()
    ensures told_rules_decide_alone { (mediation : Mediation) (flag : Bool) (request : Request) (rules : List Rule)
        → verdict mediation flag (picked rules (places_of (told flag request rules))) request ≡ verdict mediation flag rules request }
    ensures nothing_is_denied_without_those_that_deny { (request : Request) (rules : List Rule)
        → denied request (but (is_told_to_deny request) rules) ≡ 0 }
    ensures nothing_is_allowed_without_those_that_allow { (request : Request) (rules : List Rule)
        → allowed request (but (is_told_to_allow request) rules) ≡ 0 }
{}

/// The rule that a request lacks allows it: with that rule after the others, it is allowed. There is one wherever a request lacks something: for
/// each path whose pattern isn't too long, each capability and each type of sockets that can be asked for.
pub fn what_a_missing_rule_lets()
    ensures it_lets_the_request { (mediation : Mediation) (flag : Bool) (request : Request) (rules : List Rule) (rule : Rule)
        → missing_rule request rules ≡ Some rule
        → (verdict mediation flag (rules ++ rule ∷ []) request).answer ≡ Allow }
    ensures of_each_path { (letters : ℕ) (owned : Bool) (path : List ℕ) (rules : List Rule)
        → lacked (ForFile letters owned path) rules ≢ 0 → HasNoFirstFault (quoted path)
        → (rule : Rule) × (missing_rule (ForFile letters owned path) rules ≡ Some rule) }
    ensures of_each_capability { (number : ℕ) (rules : List Rule) → lacked (ForCapability number) rules ≢ 0 → number < 64
        → (rule : Rule) × (missing_rule (ForCapability number) rules ≡ Some rule) }
    ensures of_each_type { (domain kind : ℕ) (rules : List Rule) → lacked (ForSockets domain kind) rules ≢ 0 → is_protocol kind ≡ false
        → (rule : Rule) × (missing_rule (ForSockets domain kind) rules ≡ Some rule) }
{
    quoted_text_reads_as_itself();
    quoted_text_matches_itself();
}

/// Where a request lacks `x`, the rule that it lacks, after the others, leads the program of its path to run under the profile that starts it. With
/// that rule without its exec word no rule says where to go. The flag says whether each rule of the profile is audited.
pub fn where_a_missing_rule_leads()
    ensures to_who_starts_it { (letters : ℕ) (owned : Bool) (path : List ℕ) (rules : List Rule) (rule : Rule) (flag : Bool)
        → missing_rule (ForFile letters owned path) rules ≡ Some rule
        → has (lacked (ForFile letters owned path) rules) EXEC ≡ true
        → (logged : Bool) × (choice flag owned path (rules ++ rule ∷ []) ≡ Leads inherit logged) }
    ensures nowhere_without_its_exec_word { (letters : ℕ) (owned : Bool) (path : List ℕ) (rules : List Rule) (rule : FileRule) (flag : Bool)
        → missing_rule (ForFile letters owned path) rules ≡ Some (File rule)
        → has (lacked (ForFile letters owned path) rules) EXEC ≡ true
        → choice flag owned path (rules ++ File (but_letter EXEC rule) ∷ []) ≡ Missing }
{
    quoted_text_matches_itself();
}

/// The rule that a request lacks is the narrowest: as the rules are, the request isn't allowed; after them no rule allows it that doesn't cover all
/// that it lacks; and the missing rule on a file doesn't allow it without any one of its letters, of which `x` is its exec word. A rule on a
/// capability or on sockets has one need alone, without which it says nothing.
pub fn how_narrow_a_missing_rule_is()
    ensures not_allowed_without_it { (mediation : Mediation) (flag : Bool) (request : Request) (rules : List Rule) (rule : Rule)
        → missing_rule request rules ≡ Some rule
        → (verdict mediation flag rules request).answer ≢ Allow }
    ensures only_what_covers_all_lets { (mediation : Mediation) (flag : Bool) (request : Request) (rules : List Rule) (other : Rule)
        → (verdict mediation flag (rules ++ other ∷ []) request).answer ≡ Allow
        → common (lacked request rules) (covers request other) ≡ lacked request rules }
    ensures no_letter_can_go { (mediation : Mediation) (flag : Bool) (letters : ℕ) (owned : Bool) (path : List ℕ) (rules : List Rule) (rule : FileRule)
        (code letter : ℕ)
        → missing_rule (ForFile letters owned path) rules ≡ Some (File rule)
        → told_bit code ≡ Some letter → has_letter letter rule ≡ true
        → (verdict mediation flag (rules ++ File (but_letter letter rule) ∷ []) (ForFile letters owned path)).answer ≢ Allow }
{}

/// A rule is reported as conflicting with the one that a request lacks exactly where the two conflict: some path matches both, and they lead its
/// program to different profiles, with one rank. So where there is no such rule, a profile whose rules agree isn't refused with the missing rule
/// after them either. The path is a list of bytes.
pub fn what_is_in_the_way()
    ensures those_that_conflict { (letters : ℕ) (owned : Bool) (path : List ℕ) (rules : List Rule) (own rule : Rule)
        → missing_rule (ForFile letters owned path) rules ≡ Some own → All (λ b. b < 2 ^ 8) path
        → (is_in_the_way (ForFile letters owned path) (lacked (ForFile letters owned path) rules) rule ≡ true ↔ Conflict own rule) }
    ensures others_agree { (request : Request) (rules : List Rule) (own : Rule)
        → missing_rule request rules ≡ Some own → All HasReadPattern rules → agree rules ≡ true → in_the_way request rules ≡ []
        → agree (rules ++ own ∷ []) ≡ true }
{
    quoted_text_reads_as_itself();
    quoted_text_matches_itself();
    how_conflicts_are_tested();
}

/// An answer is logged exactly where something of the request is missing, or a rule that is reported as audited covers something of it: one that
/// denies, where something is denied, and else one that allows.
pub fn what_is_logged()
    ensures { (mediation : Mediation) (flag : Bool) (request : Request) (rules : List Rule)
        → is_some (verdict mediation flag rules request).tag ≡ (not (missing request rules == 0) || some_is_logged (told flag request rules)) }
{}

/// The places of those of some rules that pass a test are exactly the places of the rules that do, in rising order.
pub fn where_rules_stand()
    ensures they_are_all { (test : Rule → Bool) (rules : List Rule) → AreAllWith test rules (places_where test 0 rules) }
    ensures they_rise { (test : Rule → Bool) (rules : List Rule) → IsStrictlyIncreasing (places_where test 0 rules) }
{}

/// Where no rule denies, the places of the rules that decide are exactly those of the rules that dominate, in rising order, whether these are
/// audited or not; and where one denies, there are none. The transition of the first is where the rules lead together.
pub fn which_rules_lead()
    ensures leading_are_those_that_dominate { (flag owned : Bool) (path : List ℕ) (rules : List Rule)
        → list_any denies (exec_rules flag owned path rules) ≡ false
        → AreAllWith (says (dominates (highest (exec_rules flag owned path rules))) flag owned path) rules
        (leading_places owned path rules) }
    ensures none_leads_where_one_denies { (flag owned : Bool) (path : List ℕ) (rules : List Rule)
        → list_any denies (exec_rules flag owned path rules) ≡ true
        → leading_places owned path rules ≡ [] }
    ensures leading_rise { (owned : Bool) (path : List ℕ) (rules : List Rule) → IsStrictlyIncreasing (leading_places owned path rules) }
    ensures first_leads { (flag owned : Bool) (path : List ℕ) (rules : List Rule)
        → first_transition rules (leading_places owned path rules) ≡ chosen_transition (choice flag owned path rules) }
{
    where_rules_stand();
}
