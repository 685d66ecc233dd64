//! What a text has at an offset.

ghost use Rattle.std.specs.Prelude.{◌≡◌, ◌<◌, length, slice_index, take, true};
ghost use Rattle.aa_bytes.specs.Bytes.{hash};
ghost use Rattle.aa_bytes.specs.Texts.{begins};
ghost use Rattle.aa_text_tokens.specs.Cut.{Token, comment, piece, plain, value_piece, value_size};
ghost use Rattle.aa_text_tokens.specs.code.Pieces.{IsWithin, seen_piece, starts_piece};
ghost use Rattle.aa_text_tokens.specs.declared.cut.TokenKind.TheVariants.{Value};

use crate::assign::read_assign;
use crate::cut::{CutRefusal, TokenKind};
use crate::front::line_size;
use crate::include::{find_opening, include_from};
use crate::quoted::{read_quoted, value_size};
use crate::word::read_word;

/// What a text has where a token may begin.
#[derive(Clone, Copy, Debug)]
pub enum Piece<'a> {
    /// A token.
    Token {
        /// The kind of the token.
        kind: TokenKind,
        /// The token's own text, a part of its span.
        text: &'a [u8],
        /// How many bytes its span has.
        size: usize,
    },
    /// A comment.
    Comment {
        /// How many bytes its span has.
        size: usize,
    },
    /// Neither: the text has a fault here.
    Fault {
        /// What is wrong.
        refusal: CutRefusal,
    },
}

// The comment with which a text begins: it reaches to the end of the line.
fn read_comment(text: &[u8]) -> Piece<'_>
    requires { slice_index text.now 0 ≡ hash }
    ensures value { seen_piece result ≡ comment text.now }
    ensures within { IsWithin (length text.now) result }
{
    Piece::Comment {
        size: line_size(text),
    }
}

// The token that is a text's first byte.
fn one_byte(kind: TokenKind, text: &[u8]) -> Piece<'_>
    requires { 0 < length text.now }
    ensures value { seen_piece result ≡ Token kind (take 1 text.now) 1 }
    ensures within { IsWithin (length text.now) result }
{
    Piece::Token {
        kind,
        text: &text[..1],
        size: 1,
    }
}

// What a text begins with, where that is no Include and no Assign.
fn read_plain(text: &[u8]) -> Piece<'_>
    requires { begins starts_piece text.now ≡ true }
    ensures value { seen_piece result ≡ plain (slice_index text.now 0) text.now }
    ensures within { IsWithin (length text.now) result }
{
    match text[0] {
        b'#' => read_comment(text),
        b'"' => read_quoted(TokenKind::Quoted, text),
        b',' => one_byte(TokenKind::Comma, text),
        b'{' => one_byte(TokenKind::OpenBrace, text),
        b'}' => one_byte(TokenKind::CloseBrace, text),
        _ => read_word(text),
    }
}

/// What a text begins with, where no value may begin: an Include, else an Assign, else a comment or another token. The text isn't empty.
pub fn read_piece(text: &[u8]) -> Piece<'_>
    requires { begins starts_piece text.now ≡ true }
    ensures value { seen_piece result ≡ piece (slice_index text.now 0) text.now }
    ensures within { IsWithin (length text.now) result }
{
    if let Some(opening) = find_opening(text) {
        return include_from(text, opening);
    }
    match read_assign(text) {
        Some(token) => token,
        None => read_plain(text),
    }
}

// The value without quotes with which a text begins.
fn read_value(text: &[u8]) -> Piece<'_>
    requires { begins starts_piece text.now ≡ true }
    ensures value { seen_piece result ≡ Token Value (take (value_size text.now) text.now) (value_size text.now) }
    ensures within { IsWithin (length text.now) result }
{
    let size = value_size(text);
    Piece::Token {
        kind: TokenKind::Value,
        text: &text[..size],
        size,
    }
}

/// What a text begins with, where a value may begin. The text isn't empty.
pub fn read_value_piece(text: &[u8]) -> Piece<'_>
    requires { begins starts_piece text.now ≡ true }
    ensures value { seen_piece result ≡ value_piece (slice_index text.now 0) text.now }
    ensures within { IsWithin (length text.now) result }
{
    match text[0] {
        b'#' => read_comment(text),
        b'"' => read_quoted(TokenKind::Value, text),
        _ => read_value(text),
    }
}
