//! The patterns that the pattern of a question stands for, as a rule's does, by the folder's variables.

ghost use Rattle.std.specs.Prelude.{◌≡◌, ◌++◌, ◌∷◌, [], IfOk, OnOk, option_map};
ghost use Rattle.aa_profile_data.specs.FileRules.{file_patterns};
ghost use Rattle.aatry_claims.specs.Patterns.{asked_name, asked_patterns, asked_profile, asked_text, can_stand, patterns_by, with_asked};

use aa_bytes::has_byte;
use aa_glob_pattern::Pattern;
use aa_profile::{ProfileRefusal, read_file_in};
use aa_profile_data::{Profile, Rule};
use aa_profile_parsing::Language;
use aa_text_files::Files;
use aatry_abstractions::{copied, only_profile, push_preamble, put};
use std::alloc::{AllocError, Global};

// Whether a text can be written in quotes: it has none, and no line feed.
fn can_stand(pattern: &[u8]) -> bool
    ensures { result ≡ can_stand pattern.now }
{
    !has_byte(b'"', pattern) && !has_byte(b'\n', pattern)
}

// The name of the file in which the pattern is read: it is none of a folder.
fn asked_name(alloc: Global) -> Result<Vec<u8>, AllocError>
    ensures { IfOk result (λ name. name.items ≡ asked_name) }
{
    Vec::from_slice(alloc, b"asked//profile")
}

// The text of a file of one profile with one rule, which is on the files of a pattern, after the folder's variables.
fn asked_text(alloc: Global, files: &Files, pattern: &[u8]) -> Result<Vec<u8>, AllocError>
    ensures { IfOk result (λ text. text.items ≡ asked_text files.now pattern.now) }
{
    let mut text = Vec::new(alloc);
    push_preamble(files, &mut text)?;
    text.extend_from_slice(b"profile asked { \"")?;
    text.extend_from_slice(pattern)?;
    text.extend_from_slice(b"\" r, }\n")?;
    Ok(text)
}

// The files of a folder, followed by the one in which the pattern is read.
#[tactic(auto, unfolding(crate::specs::Patterns::with_asked))]
fn with_asked(alloc: Global, files: &Files, pattern: &[u8]) -> Result<Files, AllocError>
    ensures { IfOk result (λ made. made ≡ with_asked files.now pattern.now) }
{
    let mut made = copied(alloc, files)?;
    let text = asked_text(alloc, files, pattern)?;
    put(&mut made, asked_name(alloc)?, text)?;
    Ok(made)
}

// Appends the pattern of a rule to `out`, if it is one on files.
fn push_pattern(alloc: Global, rule: &Rule, out: &mut Vec<Pattern>) -> Result<(), AllocError>
    ensures { OnOk result (out.new.items ≡ out.old.items ++ file_patterns (rule.now ∷ [])) }
{
    if let Rule::File(rule) = rule {
        out.push(rule.pattern.try_copy(alloc)?)?;
    }
    Ok(())
}

// The patterns of the rules on files among some.
fn patterns_of(alloc: Global, rules: &[Rule]) -> Result<Vec<Pattern>, AllocError>
    ensures { IfOk result (λ patterns. patterns.items ≡ file_patterns rules.now) }
{
    let mut patterns = Vec::new(alloc);
    let mut rest = rules;
    while let [rule, behind @ ..] = rest {
        push_pattern(alloc, rule, &mut patterns)?;
        rest = behind;
    }
    Ok(patterns)
}

// The patterns of the rules on files of a profile, if there is one.
fn patterns_by(alloc: Global, profile: Option<Profile>) -> Result<Option<Vec<Pattern>>, AllocError>
    ensures { IfOk result (λ found. option_map (λ patterns. patterns.items) found ≡ patterns_by profile) }
{
    match profile {
        Some(profile) => Ok(Some(patterns_of(alloc, profile.rules.as_slice())?)),
        None => Ok(None),
    }
}

// The profile of the file in which the pattern is read, if that can be read.
#[tactic(auto, unfolding(crate::specs::Patterns::asked_profile))]
fn asked_profile(
    alloc: Global,
    language: Language,
    files: &Files,
) -> Result<Option<Profile>, AllocError>
    ensures { IfOk result (λ found. found ≡ asked_profile language files.now) }
{
    let name = asked_name(alloc)?;
    match read_file_in(alloc, language, files, &name) {
        Ok(read) => Ok(only_profile(read.profiles)),
        Err(error) => {
            if error.refusal == ProfileRefusal::Memory {
                return Err(AllocError);
            }
            Ok(None)
        }
    }
}

/// The patterns that the pattern of a question stands for: those of a rule with it in a file of the folder that begins with the folder's variables
/// (`include <tunables/global>`), if it has some. `None` where such a rule is refused, or the pattern has a quote or a line feed.
///
/// # Errors
///
/// Where memory runs out.
pub fn asked_patterns(
    alloc: Global,
    language: Language,
    files: &Files,
    pattern: &[u8],
) -> Result<Option<Vec<Pattern>>, AllocError>
    ensures { IfOk result (λ found. option_map (λ patterns. patterns.items) found ≡ asked_patterns language files.now pattern.now) }
{
    if !can_stand(pattern) {
        return Ok(None);
    }
    let copies = with_asked(alloc, files, pattern)?;
    let profile = asked_profile(alloc, language, &copies)?;
    patterns_by(alloc, profile)
}
