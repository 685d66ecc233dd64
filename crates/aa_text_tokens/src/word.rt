//! Words, as `/etc/{passwd,group}` and `rw`.

ghost use Rattle.std.specs.Prelude.{◌≡◌, ◌≤◌, ◌<◌, ◌+◌, ◌^◌, length, true, IfSome};
ghost use Rattle.aa_bytes.specs.Texts.{begins};
ghost use Rattle.aa_text_tokens.specs.Cut.{depth_behind, ends_item, ends_word, word, word_left};
ghost use Rattle.aa_text_tokens.specs.code.Pieces.{IsWithin, goes_on, seen_piece, starts_word};

use crate::cut::{CutRefusal, TokenKind};
use crate::front::is_blank;
use crate::piece::Piece;
use crate::quoted::taken;

// Whether a comma ends a word, by what follows the comma.
fn ends_item(text: &[u8]) -> bool
    ensures { result ≡ ends_item text.now }
{
    match text {
        [first, ..] => is_blank(*first) || *first == b'#' || *first == b'}',
        [] => true,
    }
}

// Whether a word ends outside braces before this byte, by the byte before it and the text after it.
fn ends_word(before: u8, byte: u8, after: &[u8]) -> bool
    ensures { result ≡ ends_word before byte after.now }
{
    byte == b'}' || (byte == b'{' && before == b')') || (byte == b',' && ends_item(after))
}

// Whether a word continues in a text, within so many braces and after this byte.
fn goes_on(depth: usize, before: u8, text: &[u8]) -> bool
    ensures value { result ≡ goes_on depth before text.now }
    ensures some { result ≡ true → 0 < length text.now }
{
    match text {
        [first, after @ ..] => {
            !is_blank(*first) && (depth > 0 || !ends_word(before, *first, after))
        }
        [] => false,
    }
}

// How many braces are open after a byte.
fn depth_behind(depth: usize, byte: u8) -> usize
    requires { depth + 1 < 2 ^ 64 }
    ensures value { result ≡ depth_behind depth byte }
    ensures bound { result ≤ depth + 1 }
{
    match byte {
        b'{' => depth + 1,
        b'}' => depth.saturating_sub(1),
        _ => depth,
    }
}

// How many bytes the word has with which a text begins; `None` where it ends within braces.
fn word_size(text: &[u8]) -> Option<usize>
    ensures value { result ≡ word_left 0 0 text.now }
    ensures within { IfSome result (λ size. size ≤ length text.now) }
{
    let mut size = 0;
    let mut depth = 0;
    let mut before = 0;
    let mut rest = text;
    while goes_on(depth, before, rest) {
        let more = taken(rest);
        depth = depth_behind(depth, rest[0]);
        before = rest[more - 1];
        size += more;
        rest = &rest[more..];
    }
    if depth == 0 { Some(size) } else { None }
}

/// The word with which a text begins, or the fault that it ends within braces.
pub fn read_word(text: &[u8]) -> Piece<'_>
    requires { begins starts_word text.now ≡ true }
    ensures value { seen_piece result ≡ word text.now }
    ensures within { IsWithin (length text.now) result }
{
    match word_size(text) {
        None => Piece::Fault {
            refusal: CutRefusal::OpenOther,
        },
        Some(size) => Piece::Token {
            kind: TokenKind::Word,
            text: &text[..size],
            size,
        },
    }
}
