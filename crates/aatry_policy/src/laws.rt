//! What holds of the profiles and the parts of a folder, as laws over the definitions that the calls are proved to follow.

ghost use Rattle.std.specs.Prelude.{◌≡◌, ℕ, Bool, List, Ok, Option, Some, is_err, map, true};
ghost use Rattle.std.specs.List.{All};
ghost use Rattle.aa_decide.specs.Exec.{Asker};
ghost use Rattle.aa_decide_ready.specs.Entries.{Loaded};
ghost use Rattle.aa_decide_ready.specs.Named.{entry_named};
ghost use Rattle.aa_decide_ready.specs.Ready.{rules_at};
ghost use Rattle.aa_profile.specs.FileReading.{file_profiles_in};
ghost use Rattle.aa_profile_data.specs.declared.profile.Profile.{Profile};
ghost use Rattle.aa_profile_parsing.specs.declared.language.Language.{Language};
ghost use Rattle.aa_set_answers.specs.Askers.{asker};
ghost use Rattle.aa_set_answers.specs.Laws.{IsListed, StandsAt};
ghost use Rattle.aa_set_answers.specs.ProfileNames.{full_name_at};
ghost use Rattle.aa_set_manager.specs.Changes.{loaded};
ghost use Rattle.aa_text_files.specs.Files.{File, file_at as place_of};
ghost use Rattle.aa_start.specs.Readable.{AreTakenSo, unread_at};
ghost use Rattle.aa_start.specs.declared.readable.UnreadFault.{UnreadFault};
ghost use Rattle.aatry_folder.specs.Reaching.{Reaches};
ghost use Rattle.aatry_policy.specs.Laws.{HasOwnRules};
ghost use Rattle.aatry_policy.specs.Folders.{Folder, origins_in, policy_in};
ghost use Rattle.aatry_policy.specs.FolderParts.{parts_in};
ghost use Rattle.aatry_policy.specs.Origins.{origins_of, rule_places};
ghost use Rattle.aatry_policy.specs.PlaceLaws.{AreReadAt, AreWrittenIn, IsFoundAt, IsPartWritten, IsReadAt};
ghost use Rattle.aatry_policy.specs.Profiles.{file_at};
ghost use Rattle.aatry_policy.specs.declared.origins.Origin.{Origin};

use aa_profile::{how_profiles_are_named, where_rules_are_made};
use aa_set_answers::where_listed_names_lead;
use aa_set_manager::what_changes_keep;
use aa_start::FileSystem;
use aatry_folder::what_cannot_be_read_is_never_entered;

/// For each profile, child and hat that the files of a folder load, its full name leads back to it as an asker; and the folder has a part of that
/// name, the first of which has exactly the rules by which it decides, and its flag that audits them. So what `aatry who` prints below a name are
/// rules of what has it.
pub fn which_rules_parts_have()
    ensures names_lead_back { (folder : Folder) (who : Asker)
        → IsListed (policy_in folder) who
        → asker (policy_in folder) (full_name_at who.entry.profile who.child) ≡ Some (Some who) }
    ensures own_rules { (folder : Folder) (who : Asker) → IsListed (policy_in folder) who → HasOwnRules (parts_in folder) who }
{
    how_profiles_are_named();
    where_listed_names_lead();
    what_changes_keep();
}

/// Each profile of a file has an origin of its own, in the order of the file, and each that the files of a folder load has one, in the order of the
/// set: the file of the origin has that profile, and the origin has the places that the file has for it. So the first origin of a name is that of
/// the loaded profile of this name.
pub fn where_loaded_profiles_are_read()
    ensures of_a_file { (language : Language) (files : List File) (name : List ℕ) (profiles : List Profile) (force_complain : Bool)
        → file_profiles_in language files name ≡ Ok profiles
        → AreReadAt language files (map (loaded force_complain) profiles) (origins_of (file_at language files name)) }
    ensures of_each_name { (language : Language) (files : List File) (name : List ℕ) (entries : List Loaded) (origins : List Origin) (entry : Loaded)
        → AreReadAt language files entries origins
        → entry_named name entries ≡ Some entry
        → IsFoundAt language files origins name entry.profile }
    ensures each { (folder : Folder) → AreReadAt folder.language folder.files (policy_in folder) (origins_in folder) }
    ensures by_name { (folder : Folder) (name : List ℕ) (entry : Loaded)
        → entry_named name (policy_in folder) ≡ Some entry
        → IsFoundAt folder.language folder.files (origins_in folder) name entry.profile }
{
    where_rules_are_made();
    what_changes_keep();
}

/// Each rule is written where it is reported to be: a profile that was read, or its child or hat at an index, has as many rules as its origin has
/// places for it, and each of them is made by a rule of its own block in the file, with the file's variables, that is written at the corresponding
/// place. This holds of all parts of a folder, by which `who` and `diff` print rules.
pub fn where_loaded_rules_are_written()
    ensures of_profiles { (language : Language) (files : List File) (profile : Profile) (origin : Origin) (child : Option ℕ)
        → IsReadAt language files profile origin
        → StandsAt profile child
        → AreWrittenIn language files origin.file child (rules_at profile child) (rule_places (Some origin) child) }
    ensures of_parts { (folder : Folder) → All (IsPartWritten folder.language folder.files) (parts_in folder) }
{
    where_rules_are_made();
    what_changes_keep();
}

/// No profile is read of a file that couldn't be read, nor of any other that leads to it by includes, through however many files: where files are
/// gathered as by `aatry_folder::policy_below`, reading such a file by its name is a fault, so that it loads nothing.
pub fn what_cannot_be_read_gives_no_profile<D: FileSystem>(disk: &D)
    ensures { (language : Language) (base : List ℕ) (files : List File) (unread : List (Option UnreadFault)) (name : List ℕ) (one other : ℕ) (way : List ℕ) (fault : UnreadFault)
        → AreTakenSo (D.known disk.now) base files unread
        → place_of files name ≡ Some one
        → Reaches files one way other
        → unread_at unread other ≡ Some fault
        → is_err (file_profiles_in language files name) ≡ true }
{
    what_cannot_be_read_is_never_entered(disk);
}
