//! The unknown flag in the token of FLAGS that holds it.

ghost use Rattle.std.specs.Prelude.{◌≡◌, ◌<◌, ◌≤◌, ◌∷◌, not, IfOk, IfSome, length};
ghost use Rattle.std.specs.List.{prefix_len, slice_split};
ghost use Rattle.std.specs.Option.{option_map};
ghost use Rattle.aa_profile_parsing.specs.Flags.{separates};
ghost use Rattle.aa_profile_parsing.specs.FlagText.{words_of_rest};
ghost use Rattle.aa_profile_parsing.specs.SeenTokens.{seen_tokens};
ghost use Rattle.aa_text_tokens.specs.SeenSplicedTokens.{seen_spliced};
ghost use Rattle.aatry_refusal_words.specs.FlagFaults.{are_read, first_unknown, flag_list, is_flag, is_unknown, list_of, token_of, unknown_flag, behind_parenthesis};

use aa_bytes::{behind, has_byte, length_while};
use aa_profile_parsing::{Language, read_flags};
use aa_text_tokens::{Spliced, Token, TokenKind};
use std::alloc::{AllocError, Global};

// What follows the first `(` of a text, or the whole text where it has none.
fn behind_parenthesis(text: &[u8]) -> &[u8]
    ensures { result.now ≡ behind_parenthesis text.now }
{
    if !has_byte(b'(', text) {
        return text;
    }
    let size = length_while(text, |byte| byte != b'(');
    behind(1, behind(size, text))
}

// The list of flags in a token of FLAGS: what is between the parentheses.
fn flag_list(text: &[u8]) -> &[u8]
    ensures { result.now ≡ flag_list text.now }
{
    let list = behind_parenthesis(text);
    let size = length_while(list, |byte| byte != b')');
    &list[..size]
}

// A token with a text of its own.
fn token_of(kind: TokenKind, text: &[u8]) -> Spliced<'_>
    ensures { seen_spliced result ≡ token_of kind text.now }
{
    Spliced {
        file: 0,
        token: Token {
            kind,
            text,
            start: 0,
            end: text.len(),
        },
    }
}

// Whether FLAGS with this text are read.
fn are_read(language: Language, text: &[u8]) -> bool
    ensures { result ≡ are_read language text.now }
{
    let tokens = [
        token_of(TokenKind::Word, text),
        token_of(TokenKind::OpenBrace, b"{"),
    ];
    match read_flags(language, &tokens) {
        Ok(_) => true,
        Err(_) => false,
    }
}

// The list with only one word.
fn list_of(alloc: Global, word: &[u8]) -> Result<Vec<u8>, AllocError>
    ensures { IfOk result (λ list. list.items ≡ list_of word.now) }
{
    let mut list = Vec::new(alloc);
    list.push(b'(')?;
    list.extend_from_slice(word)?;
    list.push(b')')?;
    Ok(list)
}

// Whether a word is a flag.
fn is_flag(alloc: Global, language: Language, word: &[u8]) -> Result<bool, AllocError>
    ensures { IfOk result (λ found. found ≡ is_flag language word.now) }
{
    let list = list_of(alloc, word)?;
    Ok(are_read(language, &list))
}

// Whether a word isn't empty, and no flag.
fn is_unknown(alloc: Global, language: Language, word: &[u8]) -> Result<bool, AllocError>
    ensures { IfOk result (λ unknown. unknown ≡ is_unknown language word.now) }
{
    if word.is_empty() {
        return Ok(false);
    }
    Ok(!is_flag(alloc, language, word)?)
}

// Whether a byte separates flags.
fn separates(byte: u8) -> bool
    ensures { result ≡ separates byte }
{
    match byte {
        b' ' | b'\t'..=b'\r' | b',' => true,
        _ => false,
    }
}

// How many bytes the first word of a list has.
fn word_size(list: &[u8]) -> usize
    ensures size { result ≡ prefix_len (λ b. not (separates b)) list.now }
    ensures within { result ≤ length list.now }
{
    length_while(list, |byte| !separates(byte))
}

// The first word of a list, and what follows its separator, if there is one.
fn first_word(list: &[u8]) -> (&[u8], Option<&[u8]>)
    ensures words { slice_split separates list.now ≡ result.0.now ∷ words_of_rest (option_map (λ rest. rest.now) result.1) }
    ensures shorter { IfSome result.1 (λ rest. length rest.now < length list.now) }
{
    let size = word_size(list);
    let word = &list[..size];
    match behind(size, list) {
        [_, more @ ..] => (word, Some(more)),
        _ => (word, None),
    }
}

// The first word of a list that is no flag, if there is one.
fn first_unknown(
    alloc: Global,
    language: Language,
    list: &[u8],
) -> Result<Option<&[u8]>, AllocError>
    ensures { IfOk result (λ found. option_map (λ word. word.now) found ≡ first_unknown language (slice_split separates list.now)) }
{
    let mut rest = list;
    loop {
        let (word, more) = first_word(rest);
        if is_unknown(alloc, language, word)? {
            return Ok(Some(word));
        }
        let Some(more) = more else {
            return Ok(None);
        };
        rest = more;
    }
}

/// The first flag in a token of FLAGS that a language doesn't have, if there is one: the first word between the parentheses that FLAGS can't have
/// alone.
///
/// # Errors
///
/// Where memory runs out.
pub fn unknown_flag(
    alloc: Global,
    language: Language,
    text: &[u8],
) -> Result<Option<&[u8]>, AllocError>
    ensures { IfOk result (λ found. option_map (λ word. word.now) found ≡ unknown_flag language text.now) }
{
    first_unknown(alloc, language, flag_list(text))
}
