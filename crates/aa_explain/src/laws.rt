//! Properties of the start of programs with one more rule, and of attachment, as laws over the definitions that the calls are proved to follow.

ghost use Rattle.std.specs.Prelude.{◌++◌, ◌↔◌, ◌∷◌, ◌≡◌, ◌≢◌, [], Bool, List, Some, map, option_and_then, slice_get, true, ℕ};
ghost use Rattle.aa_profile_data.specs.Access.{EXEC, has};
ghost use Rattle.aa_profile_data.specs.Request.{ForFile};
ghost use Rattle.aa_profile_data.specs.declared.profile.FileRule.{FileRule};
ghost use Rattle.aa_profile_data.specs.declared.profile.Rule.{Rule};
ghost use Rattle.aa_profile_data.specs.declared.profile.Rule.TheVariants.{File};
ghost use Rattle.aa_decide.specs.Attachment.{attached, attached_child};
ghost use Rattle.aa_decide.specs.Exec.{Asker, Under, exec_answer};
ghost use Rattle.aa_decide_rules.specs.StandingOut.{standing_out};
ghost use Rattle.aa_decide_rules.specs.declared.verdict.Answer.TheVariants.{Allow};
ghost use Rattle.aa_decide_ready.specs.Entries.{Loaded};
ghost use Rattle.aa_decide_ready.specs.Ready.{rules_at};
ghost use Rattle.aa_explain.specs.Candidates.{child_candidates, profile_candidates, rank_of};
ghost use Rattle.aa_explain.specs.Standings.{standing_of};
ghost use Rattle.aa_explain.specs.StartLaws.{AsksRules};
ghost use Rattle.aa_explain.specs.declared.standing.Standing.TheVariants.{Attached};
ghost use Rattle.aa_explain_rules.specs.Missing.{lacked, missing_rule};
ghost use Rattle.aa_explain_rules.specs.Narrower.{but_letter};

use aa_explain_rules::where_a_missing_rule_leads;

/// Where a request lacks `x`, the rule that it lacks allows the program of its path to be started: an asker by a profile, child or hat whose rules
/// are followed by that rule is allowed, and where its rules are looked at it runs the program under itself. With that rule without its exec word it
/// isn't allowed then.
pub fn what_starts_with_a_missing_rule()
    ensures it_is_let { (letters : ℕ) (owned : Bool) (path : List ℕ) (rules : List Rule) (rule : Rule) (entries : List Loaded) (who : Asker)
        → missing_rule (ForFile letters owned path) rules ≡ Some rule
        → has (lacked (ForFile letters owned path) rules) EXEC ≡ true
        → rules_at who.entry.profile who.child ≡ rules ++ rule ∷ []
        → (exec_answer entries (Some who) owned path).verdict.answer ≡ Allow }
    ensures it_inherits { (letters : ℕ) (owned : Bool) (path : List ℕ) (rules : List Rule) (rule : Rule) (entries : List Loaded) (who : Asker)
        → missing_rule (ForFile letters owned path) rules ≡ Some rule
        → has (lacked (ForFile letters owned path) rules) EXEC ≡ true
        → rules_at who.entry.profile who.child ≡ rules ++ rule ∷ []
        → AsksRules who
        → (exec_answer entries (Some who) owned path).to ≡ Under who.entry who.child }
    ensures not_without_its_exec_word { (letters : ℕ) (owned : Bool) (path : List ℕ) (rules : List Rule) (rule : FileRule) (entries : List Loaded)
        (who : Asker)
        → missing_rule (ForFile letters owned path) rules ≡ Some (File rule)
        → has (lacked (ForFile letters owned path) rules) EXEC ≡ true
        → rules_at who.entry.profile who.child ≡ rules ++ File (but_letter EXEC rule) ∷ []
        → AsksRules who
        → (exec_answer entries (Some who) owned path).verdict.answer ≢ Allow }
{
    where_a_missing_rule_leads();
}

/// The candidate that is reported as attached is the one whose rank stands out. Among all profiles it is the profile that attaches to a path, and
/// among the children and hats of one it is the child.
pub fn which_is_attached()
    ensures told { (ranks : List ℕ) (place rank : ℕ) → (standing_of ranks place rank ≡ Attached) ↔ (standing_out ranks ≡ Some place) }
    ensures profile { (path : List ℕ) (entries : List Loaded)
        → attached path entries ≡ option_and_then (slice_get entries) (standing_out (map (rank_of path) (profile_candidates entries))) }
    ensures child { (path : List ℕ) (entry : Loaded)
        → attached_child path entry.profile.children ≡ standing_out (map (rank_of path) (child_candidates entry)) }
{}
