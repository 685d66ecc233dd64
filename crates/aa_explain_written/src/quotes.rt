//! Patterns of one path in the quotes of a profile's file.

ghost use Rattle.std.specs.Prelude.{◌≡◌, ◌++◌, IfOk, OnOk};
ghost use Rattle.aa_explain_written.specs.Quotes.{between_quotes, escaped_byte, fits_quotes, needs_escape};

use aa_bytes::has_byte;
use aa_glob_syntax::LONGEST_PATTERN;
use std::alloc::{AllocError, Global};

// Whether a byte needs a backslash in quotes, by the one before it.
fn needs_escape(before: u8, byte: u8) -> bool
    ensures { result ≡ needs_escape before byte }
{
    byte == b'"' || byte == b']' || (byte == b'/' && before == b'/')
}

// Appends a byte of a pattern to a text, with the backslash that it needs.
fn push_escaped(text: &mut Vec<u8>, taken: bool, before: u8, byte: u8) -> Result<(), AllocError>
    ensures { OnOk result (text.new.items ≡ text.old.items ++ escaped_byte taken before byte) }
{
    if !taken && needs_escape(before, byte) {
        text.push(b'\\')?;
    }
    text.push(byte)?;
    Ok(())
}

/// A pattern of one path as it is written in quotes. `O(n)` in its length. It allocates the result alone.
///
/// # Errors
///
/// Where memory runs out.
pub fn between_quotes(alloc: Global, pattern: &[u8]) -> Result<Vec<u8>, AllocError>
    ensures { IfOk result (λ text. text.items ≡ between_quotes pattern.now) }
{
    let mut text = Vec::new(alloc);
    let mut taken = false;
    let mut before = 0;
    let mut rest = pattern;
    while let [byte, behind @ ..] = rest {
        push_escaped(&mut text, taken, before, *byte)?;
        taken = !taken && *byte == b'\\';
        before = *byte;
        rest = behind;
    }
    Ok(text)
}

/// Whether a text can be a pattern in quotes: it has no line feed, and isn't too long. `O(n)` in its length. It takes no memory.
pub fn fits_quotes(text: &[u8]) -> bool
    ensures { result ≡ fits_quotes text.now }
{
    !has_byte(b'\n', text) && text.len() <= LONGEST_PATTERN
}
