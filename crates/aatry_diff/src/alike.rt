//! What holds of the policy sets of two folders that are alike, as a law over the definitions that the calls are proved to follow.

ghost use Rattle.std.specs.Prelude.{◌≡◌, Option, true};
ghost use Rattle.aa_explain.specs.AlikePolicies.{AreAlikePolicies};
ghost use Rattle.aa_set_answers.specs.Answers.{answered};
ghost use Rattle.aa_set_commands.specs.Question.{Question};
ghost use Rattle.aatry_diff.specs.Comparing.{are_alike};
ghost use Rattle.aatry_diff.specs.Paths.{AsksOfBytes};
ghost use Rattle.aatry_policy.specs.Folders.{Folder, policy_in};
ghost use Rattle.aatry_requests.specs.Gathering.{Gathered};

use aa_explain::{policies_alike_decide_alike, who_has_a_full_name};
use aa_explain_diff::sections_alike_answer_alike;
use aatry_policy::{what_folders_load, which_rules_parts_have};

/// Where two folders are alike, their policy sets are: for each full name both have a profile, child or hat, and these are confined alike and attach
/// by the same patterns, or neither has one. And no question is answered otherwise, whoever the asker is and whatever is asked: the answer, its
/// text, which names the profile, child, hat or stack under which a program runs, and the line that logs it are the same. The path of a program that
/// is started is a list of bytes.
pub fn alike_folders_answer_alike()
    ensures policies { (old new : Folder) (requests : Option Gathered)
        → are_alike old new requests ≡ true
        → AreAlikePolicies (policy_in old) (policy_in new) }
    ensures every_question { (old new : Folder) (requests : Option Gathered) (question : Question)
        → are_alike old new requests ≡ true
        → AsksOfBytes question
        → answered (policy_in old) question ≡ answered (policy_in new) question }
{
    who_has_a_full_name();
    policies_alike_decide_alike();
    sections_alike_answer_alike();
    which_rules_parts_have();
    what_folders_load();
}
