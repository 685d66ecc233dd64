//! The values of options: which are valid, and the first that isn't.

ghost use Rattle.std.specs.Prelude.{◌≡◌, is_some, map, option_map, string_bytes};
ghost use Rattle.aatry_hints.specs.Wishes.{wish_of};
ghost use Rattle.aatry_hints.specs.Parts.{parts};
ghost use Rattle.aatry_hints.specs.Seen.{seen_bad, seen_part};
ghost use Rattle.aatry_hints.specs.Values.{bad_value_in, bad_value_of, counts_ahead_of, is_bad, is_value_of, lacking, values_told};

use crate::commands::is_taken;
use crate::options::{VALUED, is_word_of};
use crate::parts::{Part, first_part, is_given};
use aa_profile_parsing::Language;
use aatry_words::{number_of, time_named};

/// An option with a value that it doesn't take.
#[derive(Clone, Copy)]
pub struct BadValue<'a> {
    /// Its name.
    pub name: &'a [u8],
    /// The value.
    pub value: &'a [u8],
}

// Whether a value is one of `--color`.
fn is_wish(value: &[u8]) -> bool
    ensures { result ≡ is_some (wish_of value.now) }
{
    value == b"auto".as_slice() || value == b"always".as_slice() || value == b"never".as_slice()
}

// Whether a value is one that an option takes; of an option that isn't checked here each is.
fn is_value_of(name: &[u8], value: &[u8]) -> bool
    ensures { result ≡ is_value_of name.now value.now }
{
    if name == b"--language".as_slice() {
        Language::named(value).is_some()
    } else if name == b"--color".as_slice() {
        is_wish(value)
    } else if name == b"--limit".as_slice() {
        number_of(value).is_some()
    } else if name == b"--since".as_slice() {
        time_named(value).is_some()
    } else {
        true
    }
}

/// The values that an option takes, in words. It takes no memory.
pub fn values_told(name: &[u8]) -> &'static [u8]
    ensures { result.now ≡ values_told name.now }
{
    if name == b"--language".as_slice() {
        b"3 or 4"
    } else if name == b"--color".as_slice() {
        b"auto, always or never"
    } else if name == b"--limit".as_slice() {
        b"a number in digits, from 0 to 253402300799"
    } else {
        b"a time: @SECONDS since 1970, or in UTC \"YYYY-MM-DD\", \"YYYY-MM-DD HH:MM\" or \"YYYY-MM-DD HH:MM:SS\""
    }
}

// Whether the value of an option counts before some words: where it is given again, the last does; but each language has to be one.
fn counts_ahead_of(words: &[String], name: &[u8]) -> bool
    ensures { result ≡ counts_ahead_of (parts (map string_bytes words.now)) name.now }
{
    name == b"--language".as_slice() || !is_given(name, words)
}

// Whether the value of an option before some words counts, and isn't one that the option takes, and whether a command with these options of its own
// takes the option.
#[tactic(auto, unfolding(crate::specs::Values::is_bad))]
fn is_bad(own: &[&str], behind: &[String], name: &[u8], value: &[u8]) -> bool
    ensures { result ≡ is_bad (map (λ name. name.now) own.now) (parts (map string_bytes behind.now)) name.now value.now }
{
    is_taken(own, name) && !is_value_of(name, value) && counts_ahead_of(behind, name)
}

// The option of a part before some words, with its value, if that counts and the option doesn't take it.
fn bad_value_of<'a>(own: &[&str], part: Part<'a>, behind: &[String]) -> Option<BadValue<'a>>
    ensures { option_map seen_bad result ≡ bad_value_of (map (λ name. name.now) own.now) (seen_part part.entry) (parts (map string_bytes behind.now)) }
{
    match part {
        Part::Given(name, Some(value)) if is_bad(own, behind, name, value) => {
            Some(BadValue { name, value })
        }
        _ => None,
    }
}

/// The first option among some words with a value that counts, and that it doesn't take, of the options that a command with these options of its own
/// takes. It takes no memory.
pub fn bad_value_in<'a>(own: &[&str], words: &'a [String]) -> Option<BadValue<'a>>
    ensures { option_map seen_bad result ≡ bad_value_in (map (λ name. name.now) own.now) (parts (map string_bytes words.now)) }
{
    let mut rest = words;
    while let Some((part, behind)) = first_part(rest) {
        if let Some(bad) = bad_value_of(own, part, behind) {
            return Some(bad);
        }
        rest = behind;
    }
    None
}

/// The name of an option that lacks the value that it takes, if this part is one. It takes no memory.
pub fn lacking(part: Option<Part<'_>>) -> Option<&[u8]>
    ensures { option_map (λ name. name.now) result ≡ lacking (option_map seen_part part.entry) }
{
    match part {
        Some(Part::Given(name, None)) if is_word_of(&VALUED, name) => Some(name),
        _ => None,
    }
}
