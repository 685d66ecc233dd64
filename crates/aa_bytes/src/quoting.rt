//! How names and paths are printed: in quotes, or in hexadecimal.

ghost use Rattle.std.specs.Prelude.{◌≡◌, ◌-◌, ◌^◌, ◌++◌, OnOk, length, min};
ghost use Rattle.std.specs.List.{list_all};
ghost use Rattle.aa_bytes.specs.Quoting.{digits_of, hexadecimal, is_shown, quoted, written_text};

use hex::encode_to_slice;
use std::alloc::AllocError;

// Whether a byte is printed as it is: a visible ASCII character other than a quote.
fn is_shown(byte: u8) -> bool
    ensures { result ≡ is_shown byte }
{
    byte.is_ascii_graphic() && byte != b'"'
}

/// Whether all bytes of a text are printed as they are: they are visible ASCII characters, and none is a quote. It takes no memory; `O(n)` in the
/// length of the text.
pub fn are_shown(text: &[u8]) -> bool
    ensures { result ≡ list_all is_shown text.now }
{
    text.iter().all(|byte| is_shown(*byte))
}

/// The two hexadecimal digits of a byte, in upper case. It takes no memory.
pub fn two_digits(byte: u8) -> [u8; 2]
    ensures { result ≡ digits_of byte }
{
    let mut digits = [0; 2];
    match encode_to_slice([byte], &mut digits) {
        Ok(()) => {}
        Err(_) => unreachable!(),
    }
    digits.make_ascii_uppercase();
    digits
}

/// How many bytes a text takes as `push_text` prints it, or `usize::MAX` where there are more. It takes no memory.
pub fn written_size(text: &[u8]) -> usize
    ensures { result ≡ min (length (written_text text.now)) (2 ^ 64 - 1) }
{
    if are_shown(text) {
        text.len().saturating_add(2)
    } else {
        text.len().saturating_mul(2)
    }
}

/// Appends a text in quotes to a line.
///
/// # Errors
///
/// Where memory runs out.
pub fn push_quoted(line: &mut Vec<u8>, text: &[u8]) -> Result<(), AllocError>
    ensures { OnOk result (line.new.items ≡ line.old.items ++ quoted text.now) }
{
    line.push(b'"')?;
    line.extend_from_slice(text)?;
    line.push(b'"')?;
    Ok(())
}

// Appends bytes to a line, each as two hexadecimal digits.
fn push_hexadecimal(line: &mut Vec<u8>, bytes: &[u8]) -> Result<(), AllocError>
    ensures { OnOk result (line.new.items ≡ line.old.items ++ hexadecimal bytes.now) }
{
    let mut rest = bytes;
    while let [byte, more @ ..] = rest {
        line.extend_from_slice(&two_digits(*byte))?;
        rest = more;
    }
    Ok(())
}

/// Appends a text to a line as it is printed: in quotes, or in hexadecimal where one of its bytes isn't shown.
///
/// # Errors
///
/// Where memory runs out.
pub fn push_text(line: &mut Vec<u8>, text: &[u8]) -> Result<(), AllocError>
    ensures { OnOk result (line.new.items ≡ line.old.items ++ written_text text.now) }
{
    if are_shown(text) {
        push_quoted(line, text)
    } else {
        push_hexadecimal(line, text)
    }
}
