//! The patterns of a file, as its tokens and variables make them.

ghost use Rattle.std.specs.Prelude.{◌≡◌, ◌≢◌, ◌∷◌, [], Ok, Err, None, Some, IfOk, IfErr, OnOk, true, map};
ghost use Rattle.std.specs.Option.{option_map};
ghost use Rattle.aa_text_tokens.specs.SeenSplicedTokens.{seen_spliced};
ghost use Rattle.aa_profile_parsing.specs.SeenTokens.{seen_tokens};
ghost use Rattle.aa_profile_grammar.specs.Patterns.{have_expansions, over_limit, patterns_at, refusal_of_expansion, refusal_of_expansions, refusal_of_token};
ghost use Rattle.aa_glob_syntax.specs.Slashes.{collapsed};
ghost use Rattle.aa_profile_grammar.specs.Refusals.{IsRefusal};
ghost use Rattle.aa_profile_parsing.specs.ProfileError.{placed, plain};
ghost use Rattle.aa_profile_parsing.specs.declared.profile_error.ProfileRefusal.TheVariants.{Memory};

use aa_glob_pattern::{LONGEST_PATTERN, Pattern};
use aa_glob_syntax::{PatternError, collapse};
use aa_profile_parsing::{ProfileError, ProfileRefusal, place_of, placed};
use aa_text_files::Place;
use aa_text_tokens::Spliced;
use aa_text_variables::ExpansionTable;
use std::alloc::Global;

/// How many patterns a file may have, each expansion counted.
pub const MOST_RULES: usize = 16_384;

/// Checks that tokens make no more patterns than a file may have.
///
/// # Errors
///
/// `TooManyRules` at the token with which there are more than 16,384; `Memory`, without a place: memory ran out.
pub fn check_limit(
    table: &mut ExpansionTable<'_>,
    tokens: &[Spliced<'_>],
) -> Result<(), ProfileError>
    requires { have_expansions table.old (seen_tokens tokens.now) ≡ true }
    ensures ok { OnOk result (over_limit table.old (seen_tokens tokens.now) ≡ None) }
    ensures refused { IsRefusal (over_limit table.old (seen_tokens tokens.now)) result }
    ensures same { table.new ≡ table.old }
{
    let mut patterns = 0;
    for token in tokens {
        patterns += table.count(token.token.text)?;
        if patterns > MOST_RULES {
            return Err(placed(ProfileRefusal::TooManyRules, place_of(*token)));
        }
    }
    Ok(())
}

// The pattern of an expansion.
fn read_expansion(text: Vec<u8>) -> Result<Pattern, ProfileRefusal>
    ensures ok { IfOk result (λ pattern. pattern ≡ collapsed text.items) }
    ensures fine { OnOk result (refusal_of_expansion text.items ≡ None) }
    ensures refused { IfErr result (λ refusal. refusal_of_expansion text.items ≡ Some refusal) }
{
    if text.len() > LONGEST_PATTERN {
        return Err(ProfileRefusal::Pattern(PatternError::TooLong));
    }
    let mut text = text;
    collapse(&mut text);
    Ok(Pattern::from_vec(text)?)
}

// The patterns of expansions, or the refusal of the first that is no pattern, at a place.
fn read_expansions(
    alloc: Global,
    place: Place,
    texts: Vec<Vec<u8>>,
) -> Result<Vec<Pattern>, ProfileError>
    ensures ok { IfOk result (λ patterns. patterns.items ≡ map collapsed (map (λ text. text.items) texts.items)) }
    ensures fine { IfOk result (λ patterns. refusal_of_expansions (map (λ text. text.items) texts.items) ≡ None) }
    ensures refused { IsRefusal (option_map (λ refusal. placed refusal place) (refusal_of_expansions (map (λ text. text.items) texts.items))) result }
{
    let mut patterns = Vec::with_capacity(alloc, texts.len())?;
    for text in texts {
        match read_expansion(text) {
            Ok(pattern) => patterns.push(pattern)?,
            Err(refusal) => return Err(placed(refusal, place)),
        }
    }
    Ok(patterns)
}

/// The patterns of a token, one for each of its expansions, with runs of slashes collapsed.
///
/// # Errors
///
/// As `Pattern::read` refuses the first expansion that is no pattern, once its runs of slashes are collapsed; `TooLong` counts the bytes before
/// that. The place is that of the token. `Memory`, without a place: memory ran out.
pub fn read_patterns(
    alloc: Global,
    table: &mut ExpansionTable<'_>,
    token: Spliced<'_>,
) -> Result<Vec<Pattern>, ProfileError>
    requires { have_expansions table.old (seen_spliced token ∷ []) ≡ true }
    ensures ok { IfOk result (λ patterns. patterns.items ≡ patterns_at table.old (seen_spliced token.entry)) }
    ensures fine { IfOk result (λ patterns. refusal_of_token table.old (seen_spliced token.entry) ≡ None) }
    ensures refused { IsRefusal (refusal_of_token table.old (seen_spliced token.entry)) result }
    ensures same { table.new ≡ table.old }
{
    let texts = table.expand(token.token.text)?;
    read_expansions(alloc, place_of(token), texts)
}
