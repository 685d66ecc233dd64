//! Hashes and numbers in paths, which differ in each run of a program.

ghost use Rattle.std.specs.Prelude.{◌≡◌, ◌≤◌, length, take};
ghost use Rattle.std.specs.List.{list_all, list_any};
ghost use Rattle.std.specs.Option.{option_map};
ghost use Rattle.aa_bytes.specs.Bytes.{is_digit, is_letter, is_letter_or_digit};
ghost use Rattle.aa_bytes.specs.Texts.{begins};
ghost use Rattle.aatry_log_globs.specs.Runs.{are_of_uuid, begins_with_uuid, hash_of, hash_pattern, hash_size, hash_size_behind, is_capital, is_dash_place, is_hash};
ghost use Rattle.aatry_log_globs.specs.Runs.{is_hexadecimal, is_of_uuid, is_uuid, number_of, number_run, number_size, run_behind, word_size};
ghost use Rattle.aatry_log_globs.specs.SeenRuns.{seen_run};

use aa_bytes::{behind, length_while};

// How many digits a hash has at least.
const LEAST_HASH: usize = 8;

// How many bytes a UUID has.
const UUID_SIZE: usize = 36;

/// A hash or a number that a text begins with.
#[derive(Clone, Copy)]
pub struct Run {
    /// The pattern of hashes or numbers like it.
    pub pattern: &'static [u8],
    /// How many bytes it has.
    pub size: usize,
}

// Whether a byte is a hexadecimal digit.
fn is_hexadecimal(byte: u8) -> bool
    ensures { result ≡ is_hexadecimal byte }
{
    matches!(byte, b'0'..=b'9' | b'a'..=b'f' | b'A'..=b'F')
}

// Whether a byte is a digit.
fn is_digit(byte: u8) -> bool
    ensures { result ≡ is_digit byte }
{
    byte.is_ascii_digit()
}

// Whether a byte is a letter.
fn is_letter(byte: u8) -> bool
    ensures { result ≡ is_letter byte }
{
    matches!(byte, b'a'..=b'z' | b'A'..=b'Z')
}

// Whether a byte is a capital letter.
fn is_capital(byte: u8) -> bool
    ensures { result ≡ is_capital byte }
{
    matches!(byte, b'A'..=b'Z')
}

// How many letters and digits a text begins with.
fn word_size(text: &[u8]) -> usize
    ensures value { result ≡ word_size text.now }
    ensures within { result ≤ length text.now }
{
    length_while(text, |byte| byte.is_ascii_alphanumeric())
}

// How many digits a text begins with.
fn number_size(text: &[u8]) -> usize
    ensures value { result ≡ number_size text.now }
    ensures within { result ≤ length text.now }
{
    length_while(text, |byte| byte.is_ascii_digit())
}

// Whether a text has hexadecimal digits and nothing else.
fn are_hexadecimal(text: &[u8]) -> bool
    ensures { result ≡ list_all is_hexadecimal text.now }
{
    text.iter().all(|byte| is_hexadecimal(*byte))
}

// Whether a text has a digit.
fn has_digit(text: &[u8]) -> bool
    ensures { result ≡ list_any is_digit text.now }
{
    text.iter().any(|byte| is_digit(*byte))
}

// Whether a text has a letter.
fn has_letter(text: &[u8]) -> bool
    ensures { result ≡ list_any is_letter text.now }
{
    text.iter().any(|byte| is_letter(*byte))
}

// Whether a text has a capital letter.
fn has_capital(text: &[u8]) -> bool
    ensures { result ≡ list_any is_capital text.now }
{
    text.iter().any(|byte| is_capital(*byte))
}

// Whether a word is a hash.
fn is_hash(word: &[u8]) -> bool
    ensures { result ≡ is_hash word.now }
{
    word.len() >= LEAST_HASH && are_hexadecimal(word) && has_digit(word) && has_letter(word)
}

// Whether a UUID has a dash at an index.
fn is_dash_place(place: usize) -> bool
    ensures { result ≡ is_dash_place place }
{
    matches!(place, 8 | 13 | 18 | 23)
}

// Whether a byte can be at an index of a UUID.
fn is_of_uuid(place: usize, byte: u8) -> bool
    ensures { result ≡ is_of_uuid place byte }
{
    if is_dash_place(place) {
        byte == b'-'
    } else {
        is_hexadecimal(byte)
    }
}

// Whether a text is a UUID.
fn is_uuid(text: &[u8]) -> bool
    ensures { result ≡ is_uuid text.now }
{
    if text.len() != UUID_SIZE {
        return false;
    }
    let mut place = 0;
    let mut rest = text;
    while let [byte, behind @ ..] = rest {
        if !is_of_uuid(place, *byte) {
            return false;
        }
        place += 1;
        rest = behind;
    }
    true
}

// Whether a text begins with a letter or a digit.
fn begins_with_word(text: &[u8]) -> bool
    ensures { result ≡ begins is_letter_or_digit text.now }
{
    match text {
        [first, ..] => first.is_ascii_alphanumeric(),
        [] => false,
    }
}

// Whether a text begins with a UUID, which no letter or digit follows.
fn begins_with_uuid(text: &[u8]) -> bool
    ensures { result ≡ begins_with_uuid text.now }
{
    is_uuid(first_bytes(UUID_SIZE, text)) && !begins_with_word(behind(UUID_SIZE, text))
}

// The first so many bytes of a text; all, where it has no more.
fn first_bytes(size: usize, text: &[u8]) -> &[u8]
    ensures { result.now ≡ take size text.now }
{
    if size < text.len() {
        &text[..size]
    } else {
        text
    }
}

// How many bytes the hash or the UUID has with which a text begins; 0, where it begins with neither.
fn hash_size(text: &[u8]) -> usize
    ensures { result ≡ hash_size text.now }
{
    if begins_with_uuid(text) {
        return UUID_SIZE;
    }
    let size = word_size(text);
    if is_hash(&text[..size]) { size } else { 0 }
}

// How many bytes the hash or the UUID has with which a text after a byte begins; 0 after a letter or digit, which no hash follows.
fn hash_size_behind(before: u8, text: &[u8]) -> usize
    ensures { result ≡ hash_size_behind before text.now }
{
    if before.is_ascii_alphanumeric() {
        0
    } else {
        hash_size(text)
    }
}

// The pattern of hashes in the letters of this one.
fn hash_pattern(hash: &[u8]) -> &'static [u8]
    ensures { result.now ≡ hash_pattern hash.now }
{
    if has_capital(hash) {
        b"[0-9a-fA-F]*"
    } else {
        b"[0-9a-f]*"
    }
}

// The number with which a text begins, if it does.
fn number_run(text: &[u8]) -> Option<Run>
    ensures { option_map seen_run result ≡ number_run text.now }
{
    let size = number_size(text);
    if size == 0 {
        return None;
    }
    Some(Run {
        pattern: b"[0-9]*",
        size,
    })
}

/// The hash or number with which a text after a byte begins, if it begins with one: a hash has no letter or digit next to it at either end, and is a
/// UUID, or has at least eight hexadecimal digits, among them both digits and letters.
pub fn run_behind(before: u8, text: &[u8]) -> Option<Run>
    ensures { option_map seen_run result ≡ run_behind before text.now }
{
    let size = hash_size_behind(before, text);
    if size == 0 {
        return number_run(text);
    }
    let pattern = hash_pattern(first_bytes(size, text));
    Some(Run { pattern, size })
}
