//! The parts of a text with names of variables in it.

ghost use Rattle.std.specs.Prelude.{◌≡◌, ◌<◌, ◌≤◌, ◌++◌, [], Some, true, not, ◌==◌, length, IfSome, MatchOption};
ghost use Rattle.std.specs.List.{prefix_len};
ghost use Rattle.aa_bytes.specs.Bytes.{closing_brace};
ghost use Rattle.aa_text_expansion.specs.code.TextParts.{begins_name, parts_of, plain_size, taken};
ghost use Rattle.aa_text_expansion.specs.Parts.{parts, parts_behind};

use aa_bytes::{behind, length_while};
use memchr::memchr;

/// What a text begins with.
#[derive(Clone, Copy)]
pub enum TextPart<'a> {
    /// Bytes that stand for themselves.
    Text(&'a [u8]),
    /// The name of a variable, for whose values it stands.
    Name(&'a [u8]),
    /// The name of a variable that isn't closed: it reaches to the end of the text.
    Unclosed,
}

// How many bytes a text has before its first `}`.
fn name_size(text: &[u8]) -> usize
    ensures value { result ≡ prefix_len (λ b. not (b == closing_brace)) text.now }
    ensures within { result ≤ length text.now }
{
    length_while(text, |byte| byte != b'}')
}

// What a text is after the `@{` of a name, and what follows it.
fn read_name(text: &[u8]) -> (TextPart<'_>, &[u8])
    ensures value { parts_of result.0 ++ parts result.1.now ≡ parts_behind (Some []) text.now }
    ensures within { length result.1.now ≤ length text.now }
{
    let size = name_size(text);
    if size < text.len() {
        (TextPart::Name(&text[..size]), behind(size + 1, text))
    } else {
        (TextPart::Unclosed, &[])
    }
}

// Whether a text begins with the opening of a name.
fn begins_name(text: &[u8]) -> bool
    ensures value { result ≡ begins_name text.now }
    ensures within { result ≡ true → 2 ≤ length text.now }
{
    match text {
        [first, second, ..] => *first == b'@' && *second == b'{',
        _ => false,
    }
}

// How many bytes at the front of a text, which begins with no name, belong together: two after a backslash.
fn taken(text: &[u8]) -> usize
    requires { 0 < length text.now }
    ensures value { result ≡ taken text.now }
    ensures within { result ≤ length text.now }
    ensures some { 1 ≤ result }
{
    match text {
        [b'\\', _, ..] => 2,
        _ => 1,
    }
}

// How many bytes a text has before its first name, counted step by step.
fn stepped_size(text: &[u8]) -> usize
    ensures value { result ≡ plain_size text.now }
    ensures within { result ≤ length text.now }
{
    let mut size = 0;
    let mut rest = text;
    while !rest.is_empty() && !begins_name(rest) {
        let more = taken(rest);
        size += more;
        rest = behind(more, rest);
    }
    size
}

// How many bytes a text has before its first name: all of them where it has no `@`, with which each name begins, as most texts.
fn plain_size(text: &[u8]) -> usize
    ensures value { result ≡ plain_size text.now }
    ensures within { result ≤ length text.now }
{
    match memchr(b'@', text) {
        Some(_) => stepped_size(text),
        None => text.len(),
    }
}

/// What a text begins with and what follows it, or `None` where it is empty. Bytes that stand for themselves are one part up to the next name. It
/// takes no memory.
pub fn first_part(text: &[u8]) -> Option<(TextPart<'_>, &[u8])>
    ensures value { MatchOption result (text.now ≡ []) (λ read. parts_of read.0 ++ parts read.1.now ≡ parts text.now) }
    ensures shorter { IfSome result (λ read. length read.1.now < length text.now) }
{
    if text.is_empty() {
        return None;
    }
    if begins_name(text) {
        return Some(read_name(behind(2, text)));
    }
    let size = plain_size(text);
    Some((TextPart::Text(&text[..size]), behind(size, text)))
}
