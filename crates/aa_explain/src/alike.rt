//! Properties of the askers of full names, and of policy sets that are alike, as laws over the definitions that the calls are proved to follow.

ghost use Rattle.std.specs.Prelude.{◌≡◌, ◌<◌, ◌^◌, ℕ, Bool, List, Option, Some};
ghost use Rattle.std.specs.List.{All};
ghost use Rattle.aa_decide.specs.Exec.{Asker, exec_answer, named_asker};
ghost use Rattle.aa_decide_ready.specs.Entries.{Loaded};
ghost use Rattle.aa_decide_ready.specs.Ready.{decided};
ghost use Rattle.aa_decide_rules.specs.declared.judgement.Mediation.{Mediation};
ghost use Rattle.aa_explain.specs.AlikePolicies.{AreAlikePolicies, AreConfinedAlike, AskAlike, HaveReadRules, StartAlike};
ghost use Rattle.aa_explain.specs.NamedAskers.{IsNamed};
ghost use Rattle.aa_profile_data.specs.FullNames.{FullName};
ghost use Rattle.aa_profile_data.specs.Request.{Request};

use aa_decide::{what_rules_decide, where_programs_run};
use aa_decide_rules::{order_changes_no_choice, which_rank_stands_out};

/// The asker of a full name is a loaded profile that has the name's first part, or the child or hat of it that has the second part. So a full name
/// is determined by its asker.
pub fn who_has_a_full_name()
    ensures { (entries : List Loaded) (name : FullName) (who : Asker) → named_asker entries name ≡ Some who → IsNamed entries name who }
{}

/// Two policy sets that are alike, by each full name, decide alike. Two askers that are confined alike get the same verdict on each request. And an
/// asker of one full name that starts a program, or no asker, is answered the same: the verdict with its tag, whether the environment is scrubbed,
/// and where the program runs, which is under the profile, child or hat of one full name in both, under no profile, or under a stack of the same
/// full names. The rules of one set agree and their patterns read, as those of files that were read do, and the path is a list of bytes.
pub fn policies_alike_decide_alike()
    ensures same_verdict { (one other : Asker) (mediation : Mediation) (request : Request)
        → AreConfinedAlike one other
        → decided one.entry.profile one.child mediation request ≡ decided other.entry.profile other.child mediation request }
    ensures same_start { (entries others : List Loaded) (who other : Option Asker) (owned : Bool) (path : List ℕ)
        → AreAlikePolicies entries others
        → HaveReadRules entries
        → AskAlike entries others who other
        → All (λ b. b < 2 ^ 8) path
        → StartAlike entries others (exec_answer entries who owned path) (exec_answer others other owned path) }
{
    what_rules_decide();
    where_programs_run();
    which_rank_stands_out();
    order_changes_no_choice();
}
