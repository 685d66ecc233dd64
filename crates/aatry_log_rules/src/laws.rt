//! What holds of the rules to add, as a law over the definitions that the calls are proved to follow.

ghost use Rattle.std.specs.Prelude.{◌≡◌, List, Some};
ghost use Rattle.std.specs.List.{All, Contains};
ghost use Rattle.aa_decide.specs.Exec.{Asker};
ghost use Rattle.aa_decide_ready.specs.Entries.{Loaded};
ghost use Rattle.aa_set_answers.specs.Answers.{who_asks};
ghost use Rattle.aa_set_answers.specs.Askers.{asker};
ghost use Rattle.aatry_log_rules.specs.Gathered.{gathered, outcome_for};
ghost use Rattle.aatry_log_rules.specs.Laws.{CanCome, IsServed};
ghost use Rattle.aatry_log_rules.specs.declared.asker.Outcome.TheVariants.{Lacks};
ghost use Rattle.aatry_requests.specs.Tallies.{Tally};

use aa_explain_rules::what_joined_requests_let;
use aatry_requests::what_texts_tell;

/// With all rules to add for an asker, after its own, each of its requests is allowed that lacks something, unless it is reported of its path that a
/// rule is in the way, or that the rule can't be written; and that is reported only of what lacks a rule.
pub fn what_told_rules_let()
    ensures { (entries : List Loaded) (tallies : List Tally) (tally : Tally) (who : Asker)
        → All CanCome tallies → Contains tallies tally
        → asker entries (who_asks tally.question) ≡ Some (Some who)
        → outcome_for entries tally ≡ Lacks
        → IsServed entries who (gathered entries tallies).wanted tally }
{
    what_joined_requests_let();
    what_texts_tell();
}
