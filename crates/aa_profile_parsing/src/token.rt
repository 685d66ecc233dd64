//! Tokens by what they can be in the grammar of a profile's file.

ghost use Rattle.std.specs.Prelude.{◌≡◌, ◌<◌, Ok, IfOk, IfErr, length};
ghost use Rattle.aa_text_tokens.specs.SeenSplicedTokens.{seen_spliced};
ghost use Rattle.aa_profile_parsing.specs.Parts.{behind_comma, expected, unexpected};
ghost use Rattle.aa_profile_parsing.specs.Tokens.{is_pattern, is_text, is_word_of, place_of};
ghost use Rattle.aa_profile_parsing.specs.Readings.{IsFault, IsRead};
ghost use Rattle.aa_profile_parsing.specs.SeenTokens.{seen_tokens};

use crate::fault::{Fault, GrammarRefusal, refusal_at};
use aa_bytes::begins_with_byte;
use aa_text_files::Place;
use aa_text_tokens::{Spliced, TokenKind};

/// The place of a token.
pub fn place_of(token: Spliced<'_>) -> Place
    ensures { result ≡ place_of (seen_spliced token.entry) }
{
    Place {
        file: token.file,
        at: token.token.start,
    }
}

/// Whether a token is a word that is this text.
pub fn is_word_of(text: &[u8], token: Spliced<'_>) -> bool
    ensures { result ≡ is_word_of text.now (seen_spliced token.entry) }
{
    token.token.kind == TokenKind::Word && token.token.text == text
}

fn is_text(token: Spliced<'_>) -> bool
    ensures { result ≡ is_text (seen_spliced token.entry) }
{
    match token.token.kind {
        TokenKind::Word | TokenKind::Quoted => true,
        _ => false,
    }
}

/// Whether a token is a pattern: a quoted text, or a word that begins with `/` or `@`.
pub fn is_pattern(token: Spliced<'_>) -> bool
    ensures { result ≡ is_pattern (seen_spliced token.entry) }
{
    let text = token.token.text;
    match token.token.kind {
        TokenKind::Quoted => true,
        TokenKind::Word => begins_with_byte(b'/', text) || begins_with_byte(b'@', text),
        _ => false,
    }
}

/// The fault where none of the tokens that may come next is there: `BadToken` at the first token, or `RanOut`.
pub fn unexpected(tokens: &[Spliced<'_>]) -> Fault
    ensures { result ≡ unexpected (seen_tokens tokens.now) }
{
    match tokens {
        [] => Fault::RanOut,
        [token, ..] => refusal_at(GrammarRefusal::BadToken, *token),
    }
}

/// What follows the Comma with which tokens begin.
///
/// # Errors
///
/// `BadToken` at another token; `RanOut` without one.
pub fn read_comma<'a>(tokens: &'a [Spliced<'a>]) -> Result<&'a [Spliced<'a>], Fault>
    ensures ok { IfOk result (λ behind. behind_comma (seen_tokens tokens.now) ≡ Ok (seen_tokens behind.now)) }
    ensures refused { IfErr result (IsFault behind_comma tokens.now) }
    ensures shorter { IfOk result (λ behind. length behind.now < length tokens.now) }
{
    let [token, behind @ ..] = tokens else {
        return Err(Fault::RanOut);
    };
    if token.token.kind != TokenKind::Comma {
        return Err(refusal_at(GrammarRefusal::BadToken, *token));
    }
    Ok(behind)
}

/// The word or quoted text with which tokens begin, and what follows it.
///
/// # Errors
///
/// `BadToken` at another token; `RanOut` without one.
pub fn read_text<'a>(tokens: &'a [Spliced<'a>]) -> Result<(Spliced<'a>, &'a [Spliced<'a>]), Fault>
    ensures ok { IfOk result (IsRead seen_spliced (expected is_text) tokens.now) }
    ensures refused { IfErr result (IsFault (expected is_text) tokens.now) }
    ensures shorter { IfOk result (λ read. length read.1.now < length tokens.now) }
{
    let [token, behind @ ..] = tokens else {
        return Err(Fault::RanOut);
    };
    if !is_text(*token) {
        return Err(refusal_at(GrammarRefusal::BadToken, *token));
    }
    Ok((*token, behind))
}

/// The pattern with which tokens begin, and what follows it.
///
/// # Errors
///
/// `BadToken` at another token; `RanOut` without one.
pub fn read_pattern<'a>(
    tokens: &'a [Spliced<'a>],
) -> Result<(Spliced<'a>, &'a [Spliced<'a>]), Fault>
    ensures ok { IfOk result (IsRead seen_spliced (expected is_pattern) tokens.now) }
    ensures refused { IfErr result (IsFault (expected is_pattern) tokens.now) }
    ensures shorter { IfOk result (λ read. length read.1.now < length tokens.now) }
{
    let [token, behind @ ..] = tokens else {
        return Err(Fault::RanOut);
    };
    if !is_pattern(*token) {
        return Err(refusal_at(GrammarRefusal::BadToken, *token));
    }
    Ok((*token, behind))
}
