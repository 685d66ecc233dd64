//! Quoted texts, and values.

ghost use Rattle.std.specs.Prelude.{◌≡◌, ◌≤◌, ◌<◌, length, IfSome};
ghost use Rattle.aa_text_tokens.specs.Cut.{before_quote, quoted, value_size};
ghost use Rattle.aa_text_tokens.specs.code.Pieces.{IsWithin, seen_piece, taken};

use crate::cut::{CutRefusal, TokenKind};
use crate::front::is_blank;
use crate::piece::Piece;
use aa_bytes::behind;

/// How many bytes at the front of a text belong together: a backslash and the byte after it, unless that is a line feed.
pub fn taken(text: &[u8]) -> usize
    requires { 0 < length text.now }
    ensures value { result ≡ taken text.now }
    ensures within { result ≤ length text.now }
    ensures some { 1 ≤ result }
{
    match text {
        [b'\\', next, ..] => { if *next == b'\n' { 1 } else { 2 } }
        _ => 1,
    }
}

// How many bytes come before the quote that closes a text in its line; `None` where none does.
fn before_quote(text: &[u8]) -> Option<usize>
    ensures value { result ≡ before_quote text.now }
    ensures within { IfSome result (λ size. size < length text.now) }
{
    let mut size = 0;
    let mut rest = text;
    while let [first, ..] = rest {
        if *first == b'"' {
            return Some(size);
        }
        if *first == b'\n' {
            return None;
        }
        let more = taken(rest);
        size += more;
        rest = &rest[more..];
    }
    None
}

/// The quoted text with which a text begins, as a token of this kind.
pub fn read_quoted(kind: TokenKind, text: &[u8]) -> Piece<'_>
    ensures value { seen_piece result ≡ quoted kind text.now }
    ensures within { IsWithin (length text.now) result }
{
    let rest = behind(1, text);
    match before_quote(rest) {
        None => Piece::Fault {
            refusal: CutRefusal::OpenQuote,
        },
        Some(size) => Piece::Token {
            kind,
            text: &rest[..size],
            size: size + 2,
        },
    }
}

/// How many bytes the value has with which a text begins.
pub fn value_size(text: &[u8]) -> usize
    ensures value { result ≡ value_size text.now }
    ensures within { result ≤ length text.now }
{
    let mut size = 0;
    let mut rest = text;
    while let [first, ..] = rest {
        if is_blank(*first) {
            return size;
        }
        let more = taken(rest);
        size += more;
        rest = &rest[more..];
    }
    size
}
