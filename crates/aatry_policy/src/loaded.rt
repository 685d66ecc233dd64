//! What holds of the policy set that the files of a folder make, and of its parts, as a law over the definitions that the calls are proved to
//! follow.

ghost use Rattle.std.specs.Prelude.{◌≡◌, ℕ, List, true};
ghost use Rattle.std.specs.List.{Contains};
ghost use Rattle.aa_decide_ready.specs.Entries.{Loaded};
ghost use Rattle.aa_decide_ready.specs.Named.{have_distinct_names};
ghost use Rattle.aa_profile.specs.ReadPatterns.{HasReadPatterns};
ghost use Rattle.aa_profile_data.specs.Conflicts.{profile_agrees};
ghost use Rattle.aa_set_answers.specs.Laws.{HasFileNames};
ghost use Rattle.aatry_policy.specs.FolderParts.{parts_in};
ghost use Rattle.aatry_policy.specs.Folders.{Folder, policy_in};
ghost use Rattle.aatry_policy.specs.Laws.{IsFirstIn};
ghost use Rattle.aatry_policy.specs.Loaded.{entries_in};

use aa_profile::{how_profiles_are_named, which_patterns_read, which_rules_agree};
use aa_set_manager::what_changes_keep;

/// No two profiles that the files of a folder load have one name, and the names of each follow the grammar, with no two children or hats of one.
/// They are those of the files that are taken, one file's after the other's, each loaded as its file is to be: in force, it and its children and
/// hats in the modes of their own flags; in complain mode, all of it; or disabled. Its rules agree, and their patterns read. And of each part of the
/// folder, the first of its full name is that of a profile, child or hat that is loaded, in its mode or disabled as it is.
pub fn what_folders_load()
    ensures names_apart { (folder : Folder) → have_distinct_names (policy_in folder) ≡ true }
    ensures file_names { (folder : Folder) (entry : Loaded) → Contains (policy_in folder) entry → HasFileNames entry.profile }
    ensures states { (folder : Folder) → policy_in folder ≡ entries_in folder }
    ensures rules_agree { (folder : Folder) (entry : Loaded) → Contains (policy_in folder) entry → profile_agrees entry.profile ≡ true }
    ensures patterns_read { (folder : Folder) (entry : Loaded) → Contains (policy_in folder) entry → HasReadPatterns entry.profile }
    ensures parts { (folder : Folder) (name : List ℕ) → IsFirstIn (policy_in folder) (parts_in folder) name }
{
    how_profiles_are_named();
    which_rules_agree();
    which_patterns_read();
    what_changes_keep();
}
