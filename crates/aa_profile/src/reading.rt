//! Reading of a profile's file, in phases each of which goes over the whole file.

ghost use Rattle.std.specs.Prelude.{◌≡◌, ◌≢◌, Ok, Err, Some, IfOk, IfErr, false, true, map};
ghost use Rattle.std.specs.List.{list_all, list_any};
ghost use Rattle.aa_profile_grammar.specs.SeenFiles.{seen_assignment, seen_file, seen_profile};
ghost use Rattle.aa_profile_parsing.specs.SeenTokens.{seen_tokens};
ghost use Rattle.aa_profile_data.specs.Conflicts.{profile_agrees};
ghost use Rattle.aa_profile_data.specs.Numbers.{profile_has_known_numbers};
ghost use Rattle.aa_profile_data.specs.Profile.{are_distinct};
ghost use Rattle.aa_profile.specs.FilePlaces.{file_places, file_places_in, places_in};
ghost use Rattle.aa_profile.specs.FileReading.{file_profiles, file_profiles_in, profiles_in, profiles_with};
ghost use Rattle.aa_profile.specs.Refusals.{IsRefusalOf};
ghost use Rattle.aa_profile.specs.Assignments.{has_no_value};
ghost use Rattle.aa_profile_grammar.specs.PatternTokens.{of_profiles};
ghost use Rattle.aa_profile_grammar.specs.Patterns.{have_expansions};
ghost use Rattle.aa_profile_grammar.specs.Places.{places_of_profile};
ghost use Rattle.aa_profile_parsing.specs.ProfileError.{plain};
ghost use Rattle.aa_profile.specs.ProfileNames.{has_distinct_children, is_named_well};
ghost use Rattle.aa_profile_parsing.specs.declared.profile_error.ProfileRefusal.TheVariants.{Memory};

use crate::assignments::read_variables;
use crate::conflicts::check_conflicts;
use crate::file_profiles::FileProfiles;
use crate::profiles::read_profiles;
use crate::states::check_states;
use aa_profile_grammar::{File, check_limit, pattern_tokens, read_places};
use aa_profile_parsing::{Language, ProfileError};
use aa_profile_rules::which_numbers_rules_have;
use aa_text_files::Files;
use aa_text_tokens::{Spliced, spliced};
use aa_text_variables::{ExpansionTable, Variables};
use std::alloc::Global;

// The profiles of a file as it is written, with its variables and the tokens of its patterns, and the places where they are written.
fn read_with(
    alloc: Global,
    language: Language,
    variables: &Variables,
    patterns: &[Spliced<'_>],
    file: &File<'_>,
) -> Result<FileProfiles, ProfileError>
    requires tokens { seen_tokens patterns.now ≡ of_profiles (map seen_profile file.now.profiles.items) }
    requires expand { have_expansions variables.now (seen_tokens patterns.now) ≡ true }
    ensures ok { IfOk result (λ read. profiles_with language variables.now (seen_file file.now) ≡ Ok read.profiles.items) }
    ensures places { IfOk result (λ read.
        read.places.items ≡ map (places_of_profile language variables.now) (map seen_profile file.now.profiles.items)) }
    ensures refused { IsRefusalOf (profiles_with language variables.now (seen_file file.now)) result }
{
    let mut table = ExpansionTable::new(alloc, variables);
    check_limit(&mut table, patterns)?;
    let profiles = read_profiles(alloc, language, &mut table, &file.profiles)?;
    check_states(alloc, language, &file.profiles, &profiles)?;
    check_conflicts(alloc, language, &mut table, &file.profiles, &profiles)?;
    let places = read_places(alloc, language, &mut table, &file.profiles)?;
    Ok(FileProfiles { profiles, places })
}

// The profiles of a file as it is written, and the places where they are written.
fn read_written(
    alloc: Global,
    language: Language,
    file: &File<'_>,
) -> Result<FileProfiles, ProfileError>
    requires { list_any has_no_value (map seen_assignment file.now.assignments.items) ≡ false }
    ensures ok { IfOk result (λ read. profiles_in language (seen_file file.now) ≡ Ok read.profiles.items) }
    ensures places { IfOk result (λ read. places_in language (seen_file file.now) ≡ Some read.places.items) }
    ensures refused { IsRefusalOf (profiles_in language (seen_file file.now)) result }
{
    let patterns = pattern_tokens(alloc, &file.profiles)?;
    let variables = read_variables(alloc, &file.assignments, &patterns)?;
    read_with(alloc, language, &variables, &patterns, file)
}

/// Reads the profiles of the file of that name among `files`, by a language: returns them in the order of the file, with the places where they are
/// written. A file rule becomes one rule for each expansion of its pattern; these share its target and its place. Variables are expanded in
/// attachments and patterns alone: names, targets and rules that are kept stay as they are written. A place is a byte offset in the file, or in one
/// that this includes. Flags that decide nothing are returned with the places. Nothing in the result borrows `files`.
///
/// # Errors
///
/// Each phase goes over the whole file, and the first that refuses decides.
/// - As `aa_text_tokens::spliced` refuses the file's text and its includes, at the same place.
/// - As `aa_profile_grammar::read_file` refuses its tokens, at the first token, from the left, that the grammar doesn't take at its place.
/// - `Redefined` and `AppendUndefined`, at the first assignment that is refused so; then `Undefined`, at the first value, attachment or
///   pattern that names a variable that isn't defined, or doesn't close a name; then `Cycle`, at the first assignment of the first variable
///   that leads to itself or to one that does.
/// - `TooManyRules`, at the attachment or pattern with which the file has more than 16,384, each expansion counted; the word `file` alone is one.
/// - As `Pattern::read` refuses the first expansion that is no pattern, once its runs of slashes are collapsed; `TooLong` counts the bytes before
///   that. The place is that of the attachment or pattern.
/// - `ManyStates`, in language 4, at the token that names the first profile, child or hat whose exec rules, deny rules included, have more than
///   8,192 states: different beginnings of their patterns.
/// - `ExecConflict`, at the first pattern that makes a rule which conflicts with one before it in its profile, child or hat: two allow rules lead a
///   program to different profiles with one rank, and some path matches both.
/// - `Memory`, without a place: memory ran out.
pub fn read_file_in(
    alloc: Global,
    language: Language,
    files: &Files,
    name: &[u8],
) -> Result<FileProfiles, ProfileError>
    ensures ok { IfOk result (λ read. file_profiles_in language files.now name.now ≡ Ok read.profiles.items) }
    ensures places { IfOk result (λ read. file_places_in language files.now name.now ≡ Some read.places.items) }
    ensures distinct { IfOk result (λ read. are_distinct read.profiles.items ≡ true) }
    ensures named { IfOk result (λ read. list_all is_named_well read.profiles.items ≡ true) }
    ensures children { IfOk result (λ read. list_all has_distinct_children read.profiles.items ≡ true) }
    ensures numbers { IfOk result (λ read. list_all profile_has_known_numbers read.profiles.items ≡ true) }
    ensures agree { IfOk result (λ read. list_all profile_agrees read.profiles.items ≡ true) }
    ensures refused { IsRefusalOf (file_profiles_in language files.now name.now) result }
{
    which_numbers_rules_have();
    let tokens = spliced(alloc, files, name)?;
    let file = aa_profile_grammar::read_file(alloc, language, &tokens)?;
    read_written(alloc, language, &file)
}

/// Reads the profiles of a file as `read_file_in` does, by language 3.
///
/// # Errors
///
/// As for `read_file_in`.
pub fn read_file(alloc: Global, files: &Files, name: &[u8]) -> Result<FileProfiles, ProfileError>
    ensures ok { IfOk result (λ read. file_profiles files.now name.now ≡ Ok read.profiles.items) }
    ensures places { IfOk result (λ read. file_places files.now name.now ≡ Some read.places.items) }
    ensures distinct { IfOk result (λ read. are_distinct read.profiles.items ≡ true) }
    ensures named { IfOk result (λ read. list_all is_named_well read.profiles.items ≡ true) }
    ensures children { IfOk result (λ read. list_all has_distinct_children read.profiles.items ≡ true) }
    ensures numbers { IfOk result (λ read. list_all profile_has_known_numbers read.profiles.items ≡ true) }
    ensures agree { IfOk result (λ read. list_all profile_agrees read.profiles.items ≡ true) }
    ensures refused { IsRefusalOf (file_profiles files.now name.now) result }
{
    read_file_in(alloc, Language::Three, files, name)
}
