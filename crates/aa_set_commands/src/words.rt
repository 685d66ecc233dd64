//! The words of a command line.

ghost use Rattle.std.specs.Prelude.{◌≡◌, ◌<◌, ◌≤◌, ◌∷◌, [], map, length, not, drop, Option, Some, None};
ghost use Rattle.std.specs.Prelude.{MatchOption, IfOk, OnErr, IfSome, false, true};
ghost use Rattle.std.specs.List.{prefix_len};
ghost use Rattle.std.specs.Option.{option_map};
ghost use Rattle.aa_bytes.specs.Texts.{begins_with};
ghost use Rattle.aa_set_commands.specs.Limits.{most_words};
ghost use Rattle.aa_set_commands.specs.code.FirstWord.{IsFirstWord};
ghost use Rattle.aa_set_commands.specs.Words.{words_of, words_in_quotes, is_word_end, is_quote, is_command_blank};

use memchr::{memchr, memchr3};
use thiserror::Error;

// How many words a line may have: the longest command has fewer.
const MOST_WORDS: usize = 7;

/// A line can't be cut into words: a quote isn't closed, or something follows a closing quote directly, or there are more words than any command
/// has.
#[derive(Clone, Copy, Debug, PartialEq, Eq, Error)]
#[error("the line can't be cut into words")]
pub struct BadWords;

/// The words of a line, which are borrowed from it.
#[derive(Drop)]
pub struct Words<'a> {
    words: [&'a [u8]; MOST_WORDS],
    count: usize,
    ghost within: { count ≤ most_words },
}

impl<'a> Words<'a> {
    ghost use Rattle.aa_set_commands.specs.code.Texts.{texts};

    /// The words of a line, at most seven. It takes no memory.
    ///
    /// # Errors
    ///
    /// `BadWords` where a quote isn't closed, or something follows a closing quote directly, and where there are more words than any command has.
    pub fn cut(line: &'a [u8]) -> Result<Words<'a>, BadWords>
        ensures words { IfOk result (λ words. words_of line.now ≡ Some (texts words)) }
        ensures refused { OnErr result (IfSome (words_of line.now) (λ words. most_words < length words)) }
    {
        let mut words: [&[u8]; MOST_WORDS] = [b""; MOST_WORDS];
        let mut count = 0;
        let mut rest = line;
        while let Some((word, after)) = next_word(rest)? {
            if count == MOST_WORDS {
                return Err(BadWords);
            }
            words[count] = word;
            count += 1;
            rest = after;
        }
        Ok(Words { words, count })
    }

    /// The words, in the line's order.
    pub fn as_slice(&self) -> &[&'a [u8]]
        ensures { map (λ word. word.now) result.now ≡ texts self.now }
    {
        &self.words[..self.count]
    }
}

// The next word of a line and what follows it, or `None` where only blanks are left.
fn next_word(line: &[u8]) -> Result<Option<(&[u8], &[u8])>, BadWords>
    ensures word { IfOk result (IsFirstWord line.now) }
    ensures shorter { IfOk result (λ next. IfSome next (λ found. length found.1.now < length line.now)) }
    ensures refused { OnErr result (words_of line.now ≡ None) }
{
    let text = without_blanks(line);
    let [first, more @ ..] = text else {
        return Ok(None);
    };
    if *first == b'"' {
        return Ok(Some(quoted_word(more)?));
    }
    Ok(Some(text.split_at(word_length(text))))
}

// A line without its leading blanks.
fn without_blanks(line: &[u8]) -> &[u8]
    ensures words { words_of result.now ≡ words_of line.now }
    ensures begins { 0 < length result.now → is_word_end result.now ≡ false }
    ensures within { length result.now ≤ length line.now }
{
    let mut rest = line;
    while let [first, more @ ..] = rest {
        if !is_command_blank(*first) {
            break;
        }
        rest = more;
    }
    rest
}

// How many bytes a text has before its first blank.
fn word_length(text: &[u8]) -> usize
    ensures value { result ≡ prefix_len (λ b. not (is_command_blank b)) text.now }
    ensures within { result ≤ length text.now }
{
    match memchr3(b' ', b'\t', b'\r', text) {
        Some(end) => end,
        None => text.len(),
    }
}

// The word that ends at a text's first quote, and what follows that quote.
fn quoted_word(text: &[u8]) -> Result<(&[u8], &[u8]), BadWords>
    ensures word { IfOk result (λ found. words_in_quotes text.now ≡ option_map (λ words. found.0.now ∷ words) (words_of found.1.now)) }
    ensures shorter { IfOk result (λ found. length found.1.now < length text.now) }
    ensures refused { OnErr result (words_in_quotes text.now ≡ None) }
{
    let (word, rest) = text.split_at(quoted_length(text));
    let [_, after @ ..] = rest else {
        return Err(BadWords);
    };
    if !is_word_end(after) {
        return Err(BadWords);
    }
    Ok((word, after))
}

// How many bytes a text has before its first quote.
fn quoted_length(text: &[u8]) -> usize
    ensures value { result ≡ prefix_len (λ b. not (is_quote b)) text.now }
    ensures within { result ≤ length text.now }
{
    match memchr(b'"', text) {
        Some(end) => end,
        None => text.len(),
    }
}

fn is_command_blank(byte: u8) -> bool
    ensures { result ≡ is_command_blank byte }
{
    byte == b' ' || byte == b'\t' || byte == b'\r'
}

// Whether a word directly before this text ends there.
fn is_word_end(text: &[u8]) -> bool
    ensures { result ≡ is_word_end text.now }
{
    match text {
        [first, ..] => is_command_blank(*first),
        [] => true,
    }
}
