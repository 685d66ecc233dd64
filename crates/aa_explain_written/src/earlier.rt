//! The rule with which the one conflicts for which a file is refused, and which comes before it.

ghost use Rattle.std.specs.Prelude.{◌≡◌, Some, Err, IfOk, true, false, map};
ghost use Rattle.std.specs.List.{list_any};
ghost use Rattle.aa_explain_written.specs.EarlierRules.{earlier_in, earlier_in_file, earlier_rule, earlier_with, place_of_conflict, refused_at};
ghost use Rattle.aa_profile.specs.FileReading.{file_profiles_in, profiles_in};
ghost use Rattle.aa_profile.specs.Assignments.{has_no_value};
ghost use Rattle.aa_profile_grammar.specs.SeenFiles.{seen_assignment, seen_file, seen_profile};
ghost use Rattle.aa_profile_parsing.specs.SeenTokens.{seen_tokens};
ghost use Rattle.aa_profile_grammar.specs.PatternTokens.{of_profiles};
ghost use Rattle.aa_profile_grammar.specs.Patterns.{have_expansions};

use crate::sections::earlier_in_profiles;
use aa_profile::{assign_all, read_profiles};
use aa_profile_grammar::{File, check_limit, pattern_tokens, read_file, read_places};
use aa_profile_parsing::{Language, ProfileError, ProfileRefusal};
use aa_text_files::{Files, Place};
use aa_text_tokens::{Spliced, spliced};
use aa_text_variables::{ExpansionTable, Variables, what_a_text_leads_to};
use std::alloc::{AllocError, Global};

// The place of a refusal, if it is one for rules that conflict.
fn place_of_conflict(error: ProfileError) -> Option<Place>
    ensures { result ≡ place_of_conflict error.refusal error.place }
{
    match error.refusal {
        ProfileRefusal::ExecConflict => error.place,
        _ => None,
    }
}

// The place of the earlier rule of a file as it is written, with its variables and the tokens of its patterns.
fn earlier_with(
    alloc: Global,
    language: Language,
    variables: &Variables,
    patterns: &[Spliced<'_>],
    file: &File<'_>,
    place: Place,
) -> Result<Option<Place>, ProfileError>
    requires tokens { seen_tokens patterns.now ≡ of_profiles (map seen_profile file.now.profiles.items) }
    requires expand { have_expansions variables.now (seen_tokens patterns.now) ≡ true }
    ensures { IfOk result (λ found. found ≡ earlier_with language variables.now (seen_file file.now) place) }
{
    let mut table = ExpansionTable::new(alloc, variables);
    check_limit(&mut table, patterns)?;
    let profiles = read_profiles(alloc, language, &mut table, &file.profiles)?;
    let places = read_places(alloc, language, &mut table, &file.profiles)?;
    Ok(earlier_in_profiles(alloc, place, &profiles, &places)?)
}

// The place of the earlier rule of a file as it is written, which is refused at `place`.
fn earlier_in(
    alloc: Global,
    language: Language,
    file: &File<'_>,
    place: Place,
) -> Result<Option<Place>, ProfileError>
    requires valued { list_any has_no_value (map seen_assignment file.now.assignments.items) ≡ false }
    requires refused { refused_at (profiles_in language (seen_file file.now)) ≡ Some place }
    ensures { IfOk result (λ found. found ≡ earlier_in language (seen_file file.now) place) }
{
    what_a_text_leads_to();
    let patterns = pattern_tokens(alloc, &file.profiles)?;
    let variables = assign_all(alloc, &file.assignments)?;
    earlier_with(alloc, language, &variables, &patterns, file, place)
}

// The place of the earlier rule of a file that is refused at `place`.
fn earlier_in_file(
    alloc: Global,
    language: Language,
    files: &Files,
    name: &[u8],
    place: Place,
) -> Result<Option<Place>, ProfileError>
    requires { refused_at (file_profiles_in language files.now name.now) ≡ Some place }
    ensures { IfOk result (λ found. found ≡ earlier_in_file language files.now name.now place) }
{
    let tokens = spliced(alloc, files, name)?;
    let file = read_file(alloc, language, &tokens)?;
    earlier_in(alloc, language, &file, place)
}

/// The place of the first rule with which the one conflicts for which a file is refused (docs/policy.md, "Rules that conflict"): both are rules of
/// one profile, child or hat. It is a byte offset in the file, or in one that this includes, and `None` where the file is refused for something
/// else. The error is the one with which `aa_profile::read_file_in` refuses the file, read by the same language, other than `Memory`.
///
/// Where an included file has the refused rule, it may be refused in several profiles, children and hats: the result is for the first of these,
/// where a profile's own rules come before those of its children and hats.
///
/// # Errors
///
/// Where memory runs out.
pub fn earlier_rule(
    alloc: Global,
    language: Language,
    files: &Files,
    name: &[u8],
    error: ProfileError,
) -> Result<Option<Place>, AllocError>
    requires { file_profiles_in language files.now name.now ≡ Err error }
    ensures { IfOk result (λ place. place ≡ earlier_rule language files.now name.now) }
{
    let Some(place) = place_of_conflict(error) else {
        return Ok(None);
    };
    match earlier_in_file(alloc, language, files, name, place) {
        Ok(earlier) => Ok(earlier),
        Err(_) => Err(AllocError),
    }
}
