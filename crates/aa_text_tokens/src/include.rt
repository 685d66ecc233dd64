//! Includes, as `include <abstractions/base>` and `#include if exists "local/a"`.

ghost use Rattle.std.specs.Prelude.{◌≡◌, ◌≤◌, ◌<◌, length, IfSome};
ghost use Rattle.aa_text_tokens.specs.Cut.{closing, include_from, include_word, opening, opening_behind, opening_if_exists, opens_name, unclosed};
ghost use Rattle.aa_text_tokens.specs.code.Pieces.{IsWithin, seen_piece};

use crate::cut::{CutRefusal, TokenKind};
use crate::front::{size_before, spaces};
use crate::piece::Piece;
use aa_bytes::{begins_with, begins_with_byte, behind};

/// Where the name of an Include begins.
#[derive(Clone, Copy, Debug, PartialEq, Eq)]
pub struct Opening {
    /// The offset of the byte that opens it: `<` or `"`.
    pub at: usize,
    /// Whether `if exists` comes before it.
    pub if_exists: bool,
}

// How many bytes the word `include` or `#include` has with which a text begins, if it begins with one.
fn include_word(text: &[u8]) -> Option<usize>
    ensures value { result ≡ include_word text.now }
    ensures within { IfSome result (λ word. word ≤ length text.now) }
{
    if begins_with(b"include", text) {
        return Some(7);
    }
    if begins_with(b"#include", text) {
        return Some(8);
    }
    None
}

// Whether a text begins with a byte that opens a name.
fn opens_name(text: &[u8]) -> bool
    ensures { result ≡ opens_name text.now }
{
    begins_with_byte(b'<', text) || begins_with_byte(b'"', text)
}

// Where the name begins after an `if` that ends at an offset of the text.
fn opening_if_exists(at: usize, text: &[u8]) -> Option<Opening>
    requires { at ≤ length text.now }
    ensures value { result ≡ opening_if_exists at text.now }
    ensures within { IfSome result (λ opening. opening.at < length text.now) }
{
    let before = spaces(behind(at, text));
    let word = at + before;
    if before == 0 || !begins_with(b"exists", behind(word, text)) {
        return None;
    }
    let after = spaces(behind(word + 6, text));
    let name = word + 6 + after;
    if after == 0 || !opens_name(behind(name, text)) {
        return None;
    }
    Some(Opening {
        at: name,
        if_exists: true,
    })
}

// Where the name begins after the word of an Include, which has so many bytes.
fn opening_behind(text: &[u8], word: usize) -> Option<Opening>
    requires { word ≤ length text.now }
    ensures value { result ≡ opening_behind text.now word }
    ensures within { IfSome result (λ opening. opening.at < length text.now) }
{
    let at = word + spaces(behind(word, text));
    if opens_name(behind(at, text)) {
        return Some(Opening {
            at,
            if_exists: false,
        });
    }
    if begins_with(b"if", behind(at, text)) {
        return opening_if_exists(at + 2, text);
    }
    None
}

/// Where the name begins in the Include with which a text begins, or `None` where it begins with none.
pub fn find_opening(text: &[u8]) -> Option<Opening>
    ensures value { result ≡ opening text.now }
    ensures within { IfSome result (λ opening. opening.at < length text.now) }
{
    let word = include_word(text)?;
    opening_behind(text, word)
}

// The byte that closes a name.
fn closing(first: u8) -> u8
    ensures { result ≡ closing first }
{
    if first == b'<' { b'>' } else { first }
}

// The fault of a name that isn't closed in its line, by the byte that opens it.
fn unclosed(first: u8) -> CutRefusal
    ensures { result ≡ unclosed first }
{
    if first == b'<' {
        CutRefusal::OpenOther
    } else {
        CutRefusal::OpenQuote
    }
}

/// The Include with which a text begins, whose name begins at this opening; or the fault that the name isn't closed.
pub fn include_from(text: &[u8], opening: Opening) -> Piece<'_>
    requires { opening.at < length text.now }
    ensures value { seen_piece result ≡ include_from text.now opening }
    ensures within { IsWithin (length text.now) result }
{
    let first = text[opening.at];
    let close = closing(first);
    let rest = behind(opening.at + 1, text);
    let size = size_before(close, rest);
    if begins_with_byte(close, behind(size, rest)) {
        Piece::Token {
            kind: TokenKind::Include {
                if_exists: opening.if_exists,
            },
            text: &rest[..size],
            size: opening.at + size + 2,
        }
    } else {
        Piece::Fault {
            refusal: unclosed(first),
        }
    }
}
