//! The parts of the words of a start after the program's own name: options with their values, and other words.

ghost use Rattle.std.specs.Prelude.{◌≡◌, ◌∷◌, [], ◌<◌, ◌≤◌, IfSome, MatchOption, None, length, map, option_map, string_bytes};
ghost use Rattle.std.specs.List.{list_any};
ghost use Rattle.aatry_hints.specs.Parts.{command_in, ends_options, is_given_as, is_value_behind, last_behind, part_of, parts, stands_apart};
ghost use Rattle.aatry_hints.specs.Seen.{seen_part};

use crate::options::{PATHS, VALUED, is_option, is_read_ahead, is_word_of, name_in, value_in};

/// A part of words.
#[derive(Clone, Copy)]
pub enum Part<'a> {
    /// An option, by its name and its value, if it has one.
    Given(&'a [u8], Option<&'a [u8]>),
    /// Another word.
    Plain(&'a [u8]),
}

// Whether no word after this one is an option.
fn ends_options(word: &[u8]) -> bool
    ensures { result ≡ ends_options word.now }
{
    word == b"--".as_slice()
}

// Whether a word is read by itself, and not as the value of the option before it.
fn stands_apart(option: &[u8], word: &[u8]) -> bool
    ensures { result ≡ stands_apart option.now word.now }
{
    if is_word_of(&PATHS, option) {
        is_option(word)
    } else {
        is_read_ahead(option, name_in(word))
    }
}

// Whether a word is the value of the option before it.
fn is_value_behind(option: &[u8], word: &[u8]) -> bool
    ensures { result ≡ is_value_behind option.now word.now }
{
    is_word_of(&VALUED, option) && !stands_apart(option, word)
}

// A word by itself.
fn part_of(word: &[u8]) -> Part<'_>
    ensures { seen_part result ≡ part_of word.now }
{
    if is_option(word) {
        Part::Given(name_in(word), value_in(word))
    } else {
        Part::Plain(word)
    }
}

// The first part of a word and the words after it, and the words after that part; `None` at `--`, which ends the parts.
fn part_ahead<'a>(word: &'a [u8], behind: &'a [String]) -> Option<(Part<'a>, &'a [String])>
    ensures value { MatchOption result (parts (word.now ∷ map string_bytes behind.now) ≡ [])
        (λ read. parts (word.now ∷ map string_bytes behind.now) ≡ seen_part read.0 ∷ parts (map string_bytes read.1.now)) }
    ensures shorter { IfSome result (λ read. length read.1.now ≤ length behind.now) }
{
    if ends_options(word) {
        return None;
    }
    match behind {
        [] => Some((part_of(word), behind)),
        [next, rest @ ..] => {
            let value = next.as_bytes();
            if is_value_behind(word, value) {
                Some((Part::Given(word, Some(value)), rest))
            } else {
                Some((part_of(word), behind))
            }
        }
    }
}

/// The first part of some words, and the words after it, if there is one before `--`. It takes no memory.
pub fn first_part(words: &[String]) -> Option<(Part<'_>, &[String])>
    ensures value { MatchOption result (parts (map string_bytes words.now) ≡ [])
        (λ read. parts (map string_bytes words.now) ≡ seen_part read.0 ∷ parts (map string_bytes read.1.now)) }
    ensures shorter { IfSome result (λ read. length read.1.now < length words.now) }
{
    match words {
        [] => None,
        [word, behind @ ..] => part_ahead(word.as_bytes(), behind),
    }
}

/// The word in place of a command: the first that is no option, and no value of one. It takes no memory.
pub fn command_in(words: &[String]) -> Option<&[u8]>
    ensures { option_map (λ word. word.now) result ≡ command_in (parts (map string_bytes words.now)) }
{
    let mut rest = words;
    while let Some((part, behind)) = first_part(rest) {
        if let Part::Plain(word) = part {
            return Some(word);
        }
        rest = behind;
    }
    None
}

/// The last part of some words, if there is one. It takes no memory.
pub fn last_part(words: &[String]) -> Option<Part<'_>>
    ensures { option_map seen_part result ≡ last_behind None (parts (map string_bytes words.now)) }
{
    let mut last = None;
    let mut rest = words;
    while let Some((part, behind)) = first_part(rest) {
        last = Some(part);
        rest = behind;
    }
    last
}

// Whether a part is the option of this name.
fn is_given_as(name: &[u8], part: Part<'_>) -> bool
    ensures { result ≡ is_given_as name.now (seen_part part.entry) }
{
    match part {
        Part::Given(other, _) => other == name,
        Part::Plain(_) => false,
    }
}

/// Whether an option is given among some words, by its name. It takes no memory.
pub fn is_given(name: &[u8], words: &[String]) -> bool
    ensures { result ≡ list_any (is_given_as name.now) (parts (map string_bytes words.now)) }
{
    let mut rest = words;
    while let Some((part, behind)) = first_part(rest) {
        if is_given_as(name, part) {
            return true;
        }
        rest = behind;
    }
    false
}
