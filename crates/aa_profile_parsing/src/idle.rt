//! The flags in FLAGS that decide nothing, as texts.

ghost use Rattle.std.specs.Prelude.{◌≡◌, ◌++◌, ◌≤◌, ◌∷◌, [], IfOk, OnOk, length};
ghost use Rattle.std.specs.List.{filter};
ghost use Rattle.aa_profile_parsing.specs.FlagText.{spaced};
ghost use Rattle.aa_profile_parsing.specs.Flags.{is_idle};
ghost use Rattle.aa_profile_parsing.specs.IdleFlags.{flag_count, flag_tokens, idle_flags, idle_words, list_text, up_to_parenthesis};
ghost use Rattle.aa_profile_parsing.specs.SeenTokens.{seen_tokens};

use crate::flags::{first_word, is_idle};
use crate::language::Language;
use aa_bytes::{Sequence, behind, length_while};
use aa_text_tokens::{Spliced, TokenKind};
use std::alloc::{AllocError, Global};

// How many tokens come before the first opening brace.
fn flag_count(tokens: &[Spliced<'_>]) -> usize
    ensures count { result ≡ flag_count (seen_tokens tokens.now) }
    ensures within { result ≤ length tokens.now }
{
    let mut count = 0;
    let mut rest = tokens;
    while let [token, behind @ ..] = rest {
        if token.token.kind == TokenKind::OpenBrace {
            break;
        }
        count += 1;
        rest = behind;
    }
    count
}

/// The tokens of FLAGS, by the tokens from their beginning on: all before the first opening brace, with which a block begins. It takes no memory.
pub fn flag_tokens<'a>(tokens: &'a [Spliced<'a>]) -> &'a [Spliced<'a>]
    ensures { seen_tokens result.now ≡ flag_tokens (seen_tokens tokens.now) }
{
    let count = flag_count(tokens);
    &tokens[..count]
}

// The text of tokens, each followed by a blank.
fn spaced(alloc: Global, tokens: &[Spliced<'_>]) -> Result<Vec<u8>, AllocError>
    ensures { IfOk result (λ text. text.items ≡ spaced (seen_tokens tokens.now)) }
{
    let mut text = Vec::new(alloc);
    let mut rest = tokens;
    while let [token, behind @ ..] = rest {
        text.extend_from_slice(token.token.text)?;
        text.push(b' ')?;
        rest = behind;
    }
    Ok(text)
}

// What a text has before its first `)`.
fn up_to_parenthesis(text: &[u8]) -> &[u8]
    ensures { result.now ≡ up_to_parenthesis text.now }
{
    let size = length_while(text, |byte| byte != b')');
    &text[..size]
}

// The list in the text of FLAGS.
fn list_text(text: &[u8]) -> &[u8]
    ensures { result.now ≡ list_text text.now }
{
    let size = length_while(text, |byte| byte != b'(');
    up_to_parenthesis(behind(1, behind(size, text)))
}

// Appends a word, if it is a flag that decides nothing.
fn push_if_idle(
    alloc: Global,
    language: Language,
    word: &[u8],
    flags: &mut Vec<Sequence<u8>>,
) -> Result<(), AllocError>
    ensures { OnOk result (flags.new.items ≡ flags.old.items ++ filter (is_idle language) (word.now ∷ [])) }
{
    if is_idle(language, word) {
        flags.push(Sequence::from_slice(alloc, word)?)?;
    }
    Ok(())
}

// The words of a list that are flags that decide nothing.
fn idle_words(
    alloc: Global,
    language: Language,
    text: &[u8],
) -> Result<Vec<Sequence<u8>>, AllocError>
    ensures { IfOk result (λ flags. flags.items ≡ idle_words language text.now) }
{
    let mut flags = Vec::new(alloc);
    let mut rest = text;
    loop {
        let (word, more) = first_word(rest);
        push_if_idle(alloc, language, word, &mut flags)?;
        let Some(more) = more else {
            return Ok(flags);
        };
        rest = more;
    }
}

/// The flags in FLAGS that decide nothing, from their tokens: each as it is written, in their order, and as often as it is written. Of tokens that
/// `read_flags` refuses they are those between the first `(` and the first `)` after it.
///
/// # Errors
///
/// Where memory runs out.
pub fn idle_flags(
    alloc: Global,
    language: Language,
    tokens: &[Spliced<'_>],
) -> Result<Sequence<Sequence<u8>>, AllocError>
    ensures { IfOk result (λ flags. flags ≡ idle_flags language (seen_tokens tokens.now)) }
{
    let text = spaced(alloc, tokens)?;
    let flags = idle_words(alloc, language, list_text(&text))?;
    Ok(Sequence::from_vec(flags))
}
