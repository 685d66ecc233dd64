//! What holds of the rules that `why` prints, as a law over the definitions that the calls are proved to follow.

ghost use Rattle.std.specs.Prelude.{◌≡◌, Some};
ghost use Rattle.aa_decide.specs.Exec.{Asker};
ghost use Rattle.aa_set_answers.specs.Answers.{who_asks};
ghost use Rattle.aa_set_answers.specs.Askers.{asker};
ghost use Rattle.aa_set_commands.specs.Question.{Question};
ghost use Rattle.aatry_policy.specs.Folders.{Folder, policy_in};
ghost use Rattle.aatry_why.specs.Laws.{AreOwnRules};
ghost use Rattle.aatry_why.specs.Sources.{written_by};
ghost use Rattle.aatry_why.specs.Why.{sources_in};

use aatry_policy::{where_loaded_profiles_are_read, where_loaded_rules_are_written};

/// The rules that `why` prints for an asker are those by which the loaded profile, child or hat of its name decides, with its flag that audits them,
/// and each is written where it is reported to be: in the file of the loaded profile, in the block of the asker, at the place beside it.
pub fn which_rules_why_tells()
    ensures { (folder : Folder) (question : Question) (who : Asker)
        → asker (policy_in folder) (who_asks question) ≡ Some (Some who)
        → AreOwnRules folder who (written_by (sources_in folder question) who) }
{
    where_loaded_profiles_are_read();
    where_loaded_rules_are_written();
}
