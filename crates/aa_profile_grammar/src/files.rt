//! Profile files, whole.

ghost use Rattle.std.specs.Prelude.{◌≡◌, ◌≢◌, Ok, Err, None, IfOk, IfErr, map};
ghost use Rattle.aa_profile_parsing.specs.SeenTokens.{seen_tokens};
ghost use Rattle.aa_profile_parsing.specs.declared.fault.GrammarRefusal.TheVariants.{Memory};
ghost use Rattle.aa_profile_grammar.specs.Files.{file};
ghost use Rattle.aa_profile_grammar.specs.SeenFiles.{seen_file, seen_profile};
ghost use Rattle.aa_profile_grammar.specs.code.SomeProfiles.{some_profiles};

use crate::blocks::{Profile, read_profiles};
use crate::preamble::{Assignment, read_preamble};
use aa_profile_parsing::{Fault, GrammarError, GrammarRefusal, Language};
use aa_text_tokens::Spliced;
use std::alloc::Global;

/// A profile's file as it is written.
#[derive(Drop)]
pub struct File<'a> {
    /// The assignments before its profiles, in order.
    pub assignments: Vec<Assignment<'a>>,
    /// Its profiles, in order: at least one.
    pub profiles: Vec<Profile<'a>>,
}

/// Reads a profile's file from its tokens, by a language.
///
/// # Errors
///
/// The first fault, at the first token, from the left, that the grammar doesn't take at its place (docs/policy.md, "Files").
/// - `BadToken`: a token that the grammar doesn't take at its place; without a place where the tokens run out outside of a block.
/// - `OpenBlock`: the tokens run out in a block; at the innermost brace that isn't closed.
/// - `BadFlag`, `BadAccess`, `TwoExec`, `ExecQualifier`, `WriteAppend`, `BadName`: the token that holds the flag, the access, the name or the
///   target.
/// - `TargetWithoutExec`: the word `->`.
/// - `LeftOut`: the token of something that AppArmor has and isn't read here; in language 4.
/// - `BadCapability`, `BadNetwork`: the word of the rule that is at fault.
/// - `TwiceNamed`: the token of a name that another profile of the file has, or another child or hat of the profile.
/// - `NestedChild`: the word with which a child within a child begins.
/// - `LateAssignment`: an assignment after a profile.
/// - `NoProfile`, without a place: the file has no profile.
/// - `Memory`, without a place: memory ran out.
pub fn read_file<'a>(
    alloc: Global,
    language: Language,
    tokens: &'a [Spliced<'a>],
) -> Result<File<'a>, GrammarError>
    ensures ok { IfOk result (λ read. file language (seen_tokens tokens.now) ≡ Ok (seen_file read)) }
    ensures refused { IfErr result (λ error. error ≢ record { refusal = Memory; place = None } → file language (seen_tokens tokens.now) ≡ Err error) }
{
    let (assignments, behind) = read_preamble(alloc, tokens)?;
    match read_some_profiles(alloc, language, behind) {
        Ok(profiles) => Ok(File {
            assignments,
            profiles,
        }),
        Err(error) => Err(error),
    }
}

// The profiles of a file, of which there must be one, from the tokens after its preamble.
fn read_some_profiles<'a>(
    alloc: Global,
    language: Language,
    tokens: &'a [Spliced<'a>],
) -> Result<Vec<Profile<'a>>, GrammarError>
    ensures ok { IfOk result (λ profiles. some_profiles language (seen_tokens tokens.now) ≡ Ok (map seen_profile profiles.items)) }
    ensures refused { IfErr result (λ error. error ≢ record { refusal = Memory; place = None } → some_profiles language (seen_tokens tokens.now) ≡ Err error) }
{
    let (profiles, _) = read_profiles(alloc, language, tokens)?;
    if profiles.is_empty() {
        return Err(GrammarError {
            refusal: GrammarRefusal::NoProfile,
            place: None,
        });
    }
    Ok(profiles)
}
