//! Names in the texts of questions: in quotes, with `\x..` for each byte that isn't written as it is.

ghost use Rattle.std.specs.Prelude.{◌≡◌, ◌≤◌, ◌++◌, ◌∷◌, IfOk, OnOk, length};
ghost use Rattle.std.specs.List.{list_any};
ghost use Rattle.aatry_questions.specs.Names.{byte_of, byte_written, escaped, escaped_byte, is_backslash, is_plain, name_text, unescaped};

use aa_bytes::two_digits;
use hex::decode_to_slice;
use std::alloc::{AllocError, Global};

// Whether a byte is written as it is.
fn is_plain(byte: u8) -> bool
    ensures { result ≡ is_plain byte }
{
    byte.is_ascii_graphic() && byte != b'"' && byte != b'\\'
}

// Appends a byte as it is written to a text.
fn push_escaped_byte(out: &mut Vec<u8>, byte: u8) -> Result<(), AllocError>
    ensures { OnOk result (out.new.items ≡ out.old.items ++ escaped_byte byte) }
{
    if is_plain(byte) {
        out.push(byte)?;
        return Ok(());
    }
    out.extend_from_slice(b"\\x")?;
    out.extend_from_slice(&two_digits(byte))
}

// Appends the bytes of a name as they are written to a text.
fn push_escaped(out: &mut Vec<u8>, name: &[u8]) -> Result<(), AllocError>
    ensures { OnOk result (out.new.items ≡ out.old.items ++ escaped name.now) }
{
    let mut rest = name;
    while let [byte, behind @ ..] = rest {
        push_escaped_byte(out, *byte)?;
        rest = behind;
    }
    Ok(())
}

/// Appends a name to the text of a question, in quotes: each byte that is no visible ASCII character, and each quote and backslash, as `\x` and its
/// two hexadecimal digits. So a name is one word of the text, from which `unescaped` reads it back.
///
/// # Errors
///
/// Where memory runs out. A beginning may have been appended then.
pub fn push_name(out: &mut Vec<u8>, name: &[u8]) -> Result<(), AllocError>
    ensures { OnOk result (out.new.items ≡ out.old.items ++ name_text name.now) }
{
    out.push(b'"')?;
    push_escaped(out, name)?;
    out.push(b'"')?;
    Ok(())
}

// The byte of two hexadecimal digits, if they are digits.
fn byte_of(high: u8, low: u8) -> Option<u8>
    ensures { result ≡ byte_of high low }
{
    let mut byte = [0];
    match decode_to_slice([high, low], &mut byte) {
        Ok(()) => Some(byte[0]),
        Err(_) => None,
    }
}

// The byte that four bytes stand for, if they do.
fn byte_written(first: u8, second: u8, high: u8, low: u8) -> Option<u8>
    ensures { result ≡ byte_written first second high low }
{
    if first == b'\\' && second == b'x' {
        byte_of(high, low)
    } else {
        None
    }
}

// The first byte that a text stands for, of which the first byte is this one, and what follows it.
fn first_written(byte: u8, behind: &[u8]) -> (u8, &[u8])
    ensures bytes { unescaped (byte ∷ behind.now) ≡ result.0 ∷ unescaped result.1.now }
    ensures shorter { length result.1.now ≤ length behind.now }
{
    match behind {
        [] => (byte, behind),
        [_] => (byte, behind),
        [_, _] => (byte, behind),
        [second, high, low, rest @ ..] => match byte_written(byte, *second, *high, *low) {
            Some(written) => (written, rest),
            None => (byte, behind),
        },
    }
}

/// The bytes that a word of a question stands for: `\x` and two hexadecimal digits, in either case, are the byte of these digits, and any other byte
/// is itself.
///
/// # Errors
///
/// Where memory runs out.
pub fn unescaped(alloc: Global, word: &[u8]) -> Result<Vec<u8>, AllocError>
    ensures { IfOk result (λ bytes. bytes.items ≡ unescaped word.now) }
{
    let mut bytes = Vec::new(alloc);
    let mut rest = word;
    while let [byte, behind @ ..] = rest {
        let (written, left) = first_written(*byte, behind);
        bytes.push(written)?;
        rest = left;
    }
    Ok(bytes)
}

/// Whether a word may stand for other bytes than its own: it has a backslash. A word that has none is what `unescaped` returns for it
/// (`how_names_read_back`). It takes no memory.
pub fn has_backslash(word: &[u8]) -> bool
    ensures { result ≡ list_any is_backslash word.now }
{
    word.iter().any(|byte| *byte == b'\\')
}
