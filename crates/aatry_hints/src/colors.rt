//! The colours of lines.

ghost use Rattle.std.specs.Prelude.{◌≡◌, ◌++◌, OnOk};
ghost use Rattle.aatry_hints.specs.Colors.{color_of, color_of_text, has_word, opening, painted, unindented};

use aa_bytes::{begins_with, begins_with_byte, behind};
use std::alloc::AllocError;

/// A colour.
#[derive(Clone, Copy)]
pub enum Color {
    /// For what is less, and what isn't allowed.
    Red,
    /// For what is more, and what is allowed.
    Green,
    /// For what is let through in complain mode and logged.
    Yellow,
}

// The escape sequence that resets the colour.
const CLOSING: &[u8] = b"\x1b[0m";

// The escape sequence that sets a colour.
fn opening(color: Color) -> &'static [u8]
    ensures { result.now ≡ opening color }
{
    match color {
        Color::Red => b"\x1b[31m",
        Color::Green => b"\x1b[32m",
        Color::Yellow => b"\x1b[33m",
    }
}

// A text without the blanks that it begins with.
fn unindented(text: &[u8]) -> &[u8]
    ensures { result.now ≡ unindented text.now }
{
    let mut rest = text;
    while let [byte, behind @ ..] = rest {
        if *byte != b' ' {
            return rest;
        }
        rest = behind;
    }
    rest
}

// Whether a text is a word, or begins with it and a blank.
fn has_word(word: &[u8], text: &[u8]) -> bool
    ensures { result ≡ has_word word.now text.now }
{
    text == word || (begins_with(word, text) && begins_with_byte(b' ', behind(word.len(), text)))
}

// The colour of a text.
fn color_of_text(text: &[u8]) -> Option<Color>
    ensures { result ≡ color_of_text text.now }
{
    if begins_with(b"+ ", text) || has_word(b"allow", text) {
        Some(Color::Green)
    } else if begins_with(b"- ", text) || has_word(b"deny", text) || has_word(b"refuse", text) {
        Some(Color::Red)
    } else if has_word(b"complain", text) {
        Some(Color::Yellow)
    } else {
        None
    }
}

// The colour of a line, which may be indented.
fn color_of(line: &[u8]) -> Option<Color>
    ensures { result ≡ color_of line.now }
{
    color_of_text(unindented(line))
}

/// Appends a line without its end to a text, in its colour, if it has one.
///
/// # Errors
///
/// Where memory runs out. A beginning may have been appended then.
pub fn push_painted(line: &[u8], out: &mut Vec<u8>) -> Result<(), AllocError>
    ensures { OnOk result (out.new.items ≡ out.old.items ++ painted (color_of line.now) line.now) }
{
    let Some(color) = color_of(line) else {
        return out.extend_from_slice(line);
    };
    out.extend_from_slice(opening(color))?;
    out.extend_from_slice(line)?;
    out.extend_from_slice(CLOSING)
}
