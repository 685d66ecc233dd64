//! The options of all commands, by their names, and the parts of an option's word.

ghost use Rattle.std.specs.Prelude.{◌≡◌, ◌≤◌, length, map, option_map, take};
ghost use Rattle.aatry_hints.specs.Options.{begins_as_one, is_known, is_option, is_read_ahead, is_read_ahead_by, is_word_of, name_in, size_ahead, value_behind_letter, value_behind_sign, value_in};

use aa_bytes::{begins_with, behind, has_byte, length_while};

/// The options that a command may have, by their long names.
pub const OPTIONS: [&str; 22] = [
    "--json",
    "--verbose",
    "--language",
    "--color",
    "--names",
    "--dot",
    "--limit",
    "--strict",
    "--denied",
    "--profile",
    "--since",
    "--rules",
    "--included",
    "--globs",
    "--log",
    "--questions",
    "--stat",
    "--all",
    "--quiet-audit",
    "--accept",
    "--help",
    "--version",
];

// The other options, by their letters.
const LETTERS: [&str; 3] = ["-b", "-h", "-V"];

/// The options that take a value.
pub const VALUED: [&str; 8] = [
    "-b",
    "--language",
    "--color",
    "--limit",
    "--profile",
    "--since",
    "--log",
    "--questions",
];

/// The options whose value is a path.
pub const PATHS: [&str; 3] = ["-b", "--log", "--questions"];

// The options that are read out of the words before all others, in this order.
const READ_FIRST: [&str; 6] = [
    "--color",
    "--language",
    "--verbose",
    "--json",
    "--profile",
    "--all",
];

/// Whether a word is among some. It takes no memory.
pub fn is_word_of(names: &[&str], word: &[u8]) -> bool
    ensures { result ≡ is_word_of (map (λ name. name.now) names.now) word.now }
{
    let mut rest = names;
    while let [name, behind @ ..] = rest {
        if word == name.as_bytes() {
            return true;
        }
        rest = behind;
    }
    false
}

/// Whether there is an option of this name. It takes no memory.
pub fn is_known(name: &[u8]) -> bool
    ensures { result ≡ is_known name.now }
{
    is_word_of(&LETTERS, name) || is_word_of(&OPTIONS, name)
}

// Whether a word begins as one of some does.
fn begins_as_one(names: &[&str], word: &[u8]) -> bool
    ensures { result ≡ begins_as_one (map (λ name. name.now) names.now) word.now }
{
    let mut rest = names;
    while let [name, behind @ ..] = rest {
        if begins_with(name.as_bytes(), word) {
            return true;
        }
        rest = behind;
    }
    false
}

/// Whether a word has the form of an option: a hyphen, followed by more. It takes no memory.
pub fn is_option(word: &[u8]) -> bool
    ensures { result ≡ is_option word.now }
{
    begins_with(b"-", word) && word != b"-".as_slice()
}

// How many bytes of a word are before its first `=`; all, where it has none.
fn size_ahead(word: &[u8]) -> usize
    ensures value { result ≡ size_ahead word.now }
    ensures within { result ≤ length word.now }
{
    length_while(word, |byte| byte != b'=')
}

// The first two bytes of a word, or all where it has no more.
fn first_two(word: &[u8]) -> &[u8]
    ensures { result.now ≡ take 2 word.now }
{
    match word {
        [_, _, ..] => &word[..2],
        _ => word,
    }
}

/// The name of an option in its word: its letter, or what is before `=`. It takes no memory.
pub fn name_in(word: &[u8]) -> &[u8]
    ensures { result.now ≡ name_in word.now }
{
    if begins_as_one(&LETTERS, word) {
        first_two(word)
    } else {
        &word[..size_ahead(word)]
    }
}

// The value after a letter, if there is one.
fn value_behind_letter(rest: &[u8]) -> Option<&[u8]>
    ensures { option_map (λ value. value.now) result ≡ value_behind_letter rest.now }
{
    match rest {
        [] => None,
        [_, ..] => Some(rest),
    }
}

// The value after `=`, if there is one.
fn value_behind_sign(word: &[u8]) -> Option<&[u8]>
    ensures { option_map (λ value. value.now) result ≡ value_behind_sign word.now }
{
    if has_byte(b'=', word) {
        Some(behind(size_ahead(word) + 1, word))
    } else {
        None
    }
}

/// The value of an option in its own word, if it has one there. It takes no memory.
pub fn value_in(word: &[u8]) -> Option<&[u8]>
    ensures { option_map (λ value. value.now) result ≡ value_in word.now }
{
    if begins_as_one(&LETTERS, word) {
        value_behind_letter(behind(2, word))
    } else {
        value_behind_sign(word)
    }
}

// Whether the second of two options is read before the first, by the order of those that are read first.
fn is_read_ahead_by(names: &[&str], name: &[u8], other: &[u8]) -> bool
    ensures { result ≡ is_read_ahead_by (map (λ name. name.now) names.now) name.now other.now }
{
    let mut rest = names;
    while let [first, behind @ ..] = rest {
        if first.as_bytes() == name {
            return false;
        }
        if first.as_bytes() == other {
            return true;
        }
        rest = behind;
    }
    false
}

/// Whether the second of two options is read out of the words before the first. It takes no memory.
pub fn is_read_ahead(name: &[u8], other: &[u8]) -> bool
    ensures { result ≡ is_read_ahead name.now other.now }
{
    is_read_ahead_by(&READ_FIRST, name, other)
}
