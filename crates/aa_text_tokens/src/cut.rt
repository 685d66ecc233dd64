//! The tokens of a file's text.

ghost use Rattle.std.specs.Prelude.{◌≡◌, ◌≤◌, ◌<◌, ◌+◌, ◌↔◌, ◌^◌, ◌&&◌, ◌||◌, ◌==◌, not, true, false, drop, length, map, Ok, None, IfOk, IfErr};
ghost use Rattle.aa_bytes.specs.Texts.{begins};
ghost use Rattle.aa_bytes.specs.Bytes.{line_feed};
ghost use Rattle.aa_text_tokens.specs.Cut.{cut, is_assign, piece_at};
ghost use Rattle.aa_text_tokens.specs.CutFault.{IsFirstFault, name_of, number_of};
ghost use Rattle.aa_text_tokens.specs.code.Pieces.{IsWithin, seen_piece, starts_piece};
ghost use Rattle.aa_text_tokens.specs.code.Tokens.{cut_behind};
ghost use Rattle.aa_text_tokens.specs.SeenTokens.{seen};
ghost use Rattle.aa_text_tokens.specs.declared.cut.CutRefusal.TheVariants.{Memory};

use crate::front::is_blank;
use crate::piece::{Piece, read_piece, read_value_piece};
use std::alloc::{AllocError, AllocFailed, Global};
use thiserror::Error;

/// The kind of a token.
#[derive(Clone, Copy, Debug, PartialEq, Eq)]
pub enum TokenKind {
    /// `include <NAME>` or `include "NAME"`, also with `#include`. Its text is the name.
    Include {
        /// Whether `if exists` comes before the name.
        if_exists: bool,
    },
    /// `@{NAME} =` or `@{NAME} +=`, up to the sign. Its text is the name.
    Assign {
        /// Whether the sign is `+=`.
        append: bool,
    },
    /// A value after an Assign, in its line. Its text is what is in quotes, or all of it.
    Value,
    /// A quoted text. Its text is what is between the quotes, backslashes kept.
    Quoted,
    /// A word.
    Word,
    /// `,`
    Comma,
    /// `{`
    OpenBrace,
    /// `}`
    CloseBrace,
}

/// A token of a file's text. It borrows the text.
#[derive(Clone, Copy, Debug)]
pub struct Token<'a> {
    /// What kind of token it is.
    pub kind: TokenKind,
    /// The token's own text, a part of the source.
    pub text: &'a [u8],
    /// The offset in the source where its span begins, in bytes.
    pub start: usize,
    /// The offset in the source after the last byte of its span.
    pub end: usize,
}

/// Why a text can't be cut into tokens.
#[derive(Clone, Copy, Debug, PartialEq, Eq, Error)]
pub enum CutRefusal {
    /// A quote isn't closed in its line.
    #[error("a quote isn't closed in its line")]
    OpenQuote,
    /// The name of an Include isn't closed in its line, or a blank or the text's end comes within the braces of a word.
    #[error("a name or a brace isn't closed")]
    OpenOther,
    /// Memory ran out.
    #[error("memory ran out")]
    Memory,
}

/// The first fault of a text.
#[derive(Clone, Copy, Debug, PartialEq, Eq, Error)]
#[error("{refusal}")]
pub struct CutFault {
    /// What is wrong.
    pub refusal: CutRefusal,
    /// The offset of the fault in the source, in bytes; `None` where memory ran out.
    pub at: Option<usize>,
}

impl CutFault {
    /// The number of the refusal: 21, 22 or 99.
    pub fn number(self) -> u8
        ensures { result ≡ number_of self.refusal }
    {
        match self.refusal {
            CutRefusal::OpenQuote => 21,
            CutRefusal::OpenOther => 22,
            CutRefusal::Memory => 99,
        }
    }

    /// The name of the refusal, as the variant is written.
    pub fn name(self) -> &'static str
        ensures { result.now ≡ name_of self.refusal }
    {
        match self.refusal {
            CutRefusal::OpenQuote => "OpenQuote",
            CutRefusal::OpenOther => "OpenOther",
            CutRefusal::Memory => "Memory",
        }
    }
}

impl From<AllocError> for CutFault {
    ghost from_gives = { λ _ fault. (fault.refusal ≡ Memory) × (fault.at ≡ None) };

    fn from(_: AllocError) -> Self {
        CutFault {
            refusal: CutRefusal::Memory,
            at: None,
        }
    }
}

impl<T: Drop> From<AllocFailed<T>> for CutFault {
    ghost from_gives = { λ _ fault. (fault.refusal ≡ Memory) × (fault.at ≡ None) };

    fn from(_: AllocFailed<T>) -> Self {
        CutFault {
            refusal: CutRefusal::Memory,
            at: None,
        }
    }
}

// Whether values may follow a token, by whether they might before it.
fn values_from(values: bool, kind: TokenKind) -> bool
    ensures { result ≡ (values || is_assign kind) }
{
    values || matches!(kind, TokenKind::Assign { .. })
}

// What a text begins with, where a value may begin or where none may.
fn piece_at(values: bool, text: &[u8]) -> Piece<'_>
    requires { begins starts_piece text.now ≡ true }
    ensures value { seen_piece result ≡ piece_at values text.now }
    ensures within { IsWithin (length text.now) result }
{
    if values {
        read_value_piece(text)
    } else {
        read_piece(text)
    }
}

// Whether values may follow a blank, by whether they might before it.
fn values_behind(values: bool, blank: u8) -> bool
    ensures { result ≡ (values && not (blank == line_feed)) }
{
    values && blank != b'\n'
}

// Reads what a text begins with at an offset of the source, and appends it to the tokens if it is one. Returns how many bytes it has, and whether
// values may follow it.
fn read_on<'a>(
    tokens: &mut Vec<Token<'a>>,
    at: usize,
    values: bool,
    text: &'a [u8],
) -> Result<(usize, bool), CutFault>
    requires some { 0 < length text.now }
    requires room { at + length text.now < 2 ^ 64 }
    ensures ok { IfOk result (λ read. cut_behind tokens.new (at + read.0) read.1 (drop read.0 text.now) ≡ cut_behind tokens.old at values text.now) }
    ensures within { IfOk result (λ read. read.0 ≤ length text.now) }
    ensures some { IfOk result (λ read. 1 ≤ read.0) }
    ensures refused { IfErr result (λ fault. IsFirstFault fault (cut at 0 values text.now)) }
    ensures memory { IfErr result (λ fault. fault.at ≡ None ↔ fault.refusal ≡ Memory) }
{
    let first = text[0];
    if is_blank(first) {
        return Ok((1, values_behind(values, first)));
    }
    match piece_at(values, text) {
        Piece::Token {
            kind,
            text: own,
            size,
        } => {
            tokens.push(Token {
                kind,
                text: own,
                start: at,
                end: at + size,
            })?;
            Ok((size, values_from(values, kind)))
        }
        Piece::Comment { size } => Ok((size, values)),
        Piece::Fault { refusal } => Err(CutFault {
            refusal,
            at: Some(at),
        }),
    }
}

/// Returns the tokens of a text, in order. They borrow the text. It allocates the list of tokens alone.
///
/// # Errors
///
/// The first of the text's faults, with its offset: `OpenQuote` or `OpenOther`. `Memory`, without one, where memory runs out.
pub fn tokens(alloc: Global, source: &[u8]) -> Result<Vec<Token<'_>>, CutFault>
    ensures ok { IfOk result (λ tokens. cut 0 0 false source.now ≡ Ok (map seen tokens.items)) }
    ensures refused { IfErr result (λ fault. IsFirstFault fault (cut 0 0 false source.now)) }
    ensures memory { IfErr result (λ fault. fault.at ≡ None ↔ fault.refusal ≡ Memory) }
{
    let mut tokens = Vec::new(alloc);
    let mut at = 0;
    let mut values = false;
    let mut rest = source;
    while !rest.is_empty() {
        let (size, follow) = read_on(&mut tokens, at, values, rest)?;
        at += size;
        values = follow;
        rest = &rest[size..];
    }
    Ok(tokens)
}
