//! Properties of files that are read, as laws over the definitions that `read_file_in` is proved to follow, by each language.

ghost use Rattle.std.specs.Prelude.{◌≡◌, ℕ, List, IfOk, true};
ghost use Rattle.std.specs.List.{All, list_all};
ghost use Rattle.aa_text_files.specs.Files.{File};
ghost use Rattle.aa_profile_data.specs.Conflicts.{profile_agrees};
ghost use Rattle.aa_profile_data.specs.Numbers.{profile_has_known_numbers};
ghost use Rattle.aa_profile_data.specs.Profile.{are_distinct};
ghost use Rattle.aa_profile.specs.FileReading.{file_profiles, file_profiles_in};
ghost use Rattle.aa_profile.specs.Laws.{ConflictsAreRefused};
ghost use Rattle.aa_profile.specs.NarrowProfiles.{IsNarrow};
ghost use Rattle.aa_profile.specs.PlaceLaws.{AreFileMadeAt};
ghost use Rattle.aa_profile.specs.FilePlaces.{file_places_in};
ghost use Rattle.aa_profile_data.specs.declared.profile.Profile.{Profile};
ghost use Rattle.aa_profile_parsing.specs.declared.language.Language.{Language};
ghost use Rattle.aa_profile_grammar.specs.declared.places.ProfilePlaces.{ProfilePlaces};
ghost use Rattle.aa_profile.specs.ProfileNames.{has_distinct_children, is_named_well};
ghost use Rattle.aa_profile.specs.ReadPatterns.{HasReadPatterns};

use aa_profile_data::how_conflicts_are_tested;
use aa_profile_parsing::which_mode_flags_language_3_has;
use aa_profile_rules::which_rules_language_3_has;

/// No two profiles of a file have one name. Each profile has a name as the grammar says, and so have its children and hats. No two children or
/// hats of a profile have one name.
pub fn how_profiles_are_named()
    ensures no_two_profiles_have_one_name { (language : Language) (files : List File) (name : List ℕ)
        → IfOk (file_profiles_in language files name) (λ profiles. are_distinct profiles ≡ true) }
    ensures each_name_is_as_the_grammar_says { (language : Language) (files : List File) (name : List ℕ)
        → IfOk (file_profiles_in language files name) (λ profiles. list_all is_named_well profiles ≡ true) }
    ensures no_two_children_have_one_name { (language : Language) (files : List File) (name : List ℕ)
        → IfOk (file_profiles_in language files name) (λ profiles. list_all has_distinct_children profiles ≡ true) }
{}

/// Every number in a rule of a file's profiles, or of their children and hats, is in the tables: its capabilities have numbers below 41, its domain
/// has one below 44, and its type or protocol one below 9.
pub fn which_numbers_rules_have()
    ensures { (language : Language) (files : List File) (name : List ℕ)
        → IfOk (file_profiles_in language files name) (λ profiles. list_all profile_has_known_numbers profiles ≡ true) }
{
    aa_profile_rules::which_numbers_rules_have();
}

/// No two rules of a file's profiles conflict, nor do any of one of their children and hats.
pub fn which_rules_agree()
    ensures { (language : Language) (files : List File) (name : List ℕ)
        → IfOk (file_profiles_in language files name) (λ profiles. list_all profile_agrees profiles ≡ true) }
{}

/// The pattern of each rule of a file's profiles reads, and so does that of each rule of their children and hats.
pub fn which_patterns_read()
    ensures { (language : Language) (files : List File) (name : List ℕ) → IfOk (file_profiles_in language files name) (All HasReadPatterns) }
{}

/// Where all patterns of a file's profiles can be made and read, it is refused for a conflict exactly where two rules of one of its profiles,
/// children or hats conflict: they lead to different profiles with one rank, and some path matches both.
pub fn when_conflicts_are_refused()
    ensures { ConflictsAreRefused }
{
    how_conflicts_are_tested();
}

/// A file that is read has as many places as profiles, for each of these as many as it has children and hats, and for each of these and the profile
/// as many as it has rules. Each rule is one that a rule of its own block makes with the file's variables, and that rule is written at the place;
/// and each attachment is written at its place.
pub fn where_rules_are_made()
    ensures { (language : Language) (files : List File) (name : List ℕ) (profiles : List Profile) (places : List ProfilePlaces)
        → file_profiles_in language files name ≡ Ok profiles
        → file_places_in language files name ≡ Some places
        → AreFileMadeAt language files name profiles places }
{}

/// What language 4 alone has, language 3 never reads: no profile, child or hat of a file that is read by language 3 is in the mode unconfined, and
/// no rule of one names a stack as its target. The rank of each rule depends on its own pattern: plain where it has an exec word and the pattern is
/// exact, else loose, and never last. So what language 4 says by ranks, language 3 says by exactness.
pub fn what_language_3_has_not()
    ensures { (files : List File) (name : List ℕ) → IfOk (file_profiles files name) (All IsNarrow) }
{
    which_mode_flags_language_3_has();
    which_rules_language_3_has();
}
