//! The texts of the values of pairs.

ghost use Rattle.std.specs.Prelude.{◌≡◌, ◌≤◌, option_map, IfOk, length};
ghost use Rattle.std.specs.List.{position_or_len};
ghost use Rattle.aatry_log_lines.specs.Values.{before_last_quote, hexadecimal_text, is_quote, quoted_text, seen_text, text_of};

use aa_bytes::{begins_with_byte, length_while};
use hex::{FromHexError, decode};
use std::alloc::{AllocError, Global};

/// A text of a line: as the line has it, or decoded.
#[derive(Drop)]
pub enum LoggedText<'a> {
    /// The line has it in quotes.
    Written(&'a [u8]),
    /// The line has it in hexadecimal.
    Decoded(Vec<u8>),
}

impl<'a> LoggedText<'a> {
    /// The text's bytes. It takes no memory.
    pub fn as_slice(&self) -> &[u8]
        ensures { result.now ≡ seen_text self.now }
    {
        match self {
            LoggedText::Written(text) => text,
            LoggedText::Decoded(bytes) => bytes,
        }
    }

    /// The same text, which borrows from no line.
    ///
    /// # Errors
    ///
    /// Where memory runs out.
    pub fn into_owned<'b>(self, alloc: Global) -> Result<LoggedText<'b>, AllocError>
        ensures { IfOk result (λ owned. seen_text owned ≡ seen_text self.entry) }
    {
        match self {
            LoggedText::Written(text) => Ok(LoggedText::Decoded(Vec::from_slice(alloc, text)?)),
            LoggedText::Decoded(bytes) => Ok(LoggedText::Decoded(bytes)),
        }
    }
}

// How many bytes are before the first quote; all, where there is none.
fn size_before_quote(text: &[u8]) -> usize
    ensures value { result ≡ position_or_len is_quote text.now }
    ensures within { result ≤ length text.now }
{
    length_while(text, |byte| byte != b'"')
}

// What is before the first quote, if that is at the end.
fn before_last_quote(text: &[u8]) -> Option<&[u8]>
    ensures { option_map (λ found. found.now) result ≡ before_last_quote text.now }
{
    let (before, rest) = text.split_at(size_before_quote(text));
    if rest.len() == 1 { Some(before) } else { None }
}

/// The text of a value that is written in quotes. It takes no memory.
pub fn quoted_text(value: &[u8]) -> Option<&[u8]>
    ensures { option_map (λ text. text.now) result ≡ quoted_text value.now }
{
    match value {
        [b'"', rest @ ..] => before_last_quote(rest),
        _ => None,
    }
}

// The text of a value that is written in hexadecimal.
fn decoded_text(alloc: Global, value: &[u8]) -> Result<Option<Vec<u8>>, AllocError>
    ensures { IfOk result (λ found. option_map (λ bytes. bytes.items) found ≡ hexadecimal_text value.now) }
{
    match decode(alloc, value) {
        Ok(bytes) => Ok(Some(bytes)),
        Err(FromHexError::OutOfMemory) => Err(AllocError),
        Err(_) => Ok(None),
    }
}

/// The text of a value, if it has one: it is written in quotes, or in hexadecimal. Only the latter takes memory.
///
/// # Errors
///
/// Where memory runs out.
pub fn text_of<'a>(alloc: Global, value: &'a [u8]) -> Result<Option<LoggedText<'a>>, AllocError>
    ensures { IfOk result (λ found. option_map seen_text found ≡ text_of value.now) }
{
    if begins_with_byte(b'"', value) {
        return Ok(quoted_text(value).map(|text| LoggedText::Written(text)));
    }
    match decoded_text(alloc, value)? {
        Some(bytes) => Ok(Some(LoggedText::Decoded(bytes))),
        None => Ok(None),
    }
}
