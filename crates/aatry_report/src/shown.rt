//! Texts of files and names, as they are shown at a terminal.

ghost use Rattle.std.specs.Prelude.{◌≡◌, ◌++◌, OnOk};
ghost use Rattle.aatry_report.specs.Shown.{is_obeyed, shown, shown_byte, shown_line_byte, shown_lines};

use std::alloc::AllocError;

const DELETE: u8 = 0x7f;

// Whether a byte is a control byte for a terminal: below the space, but not the tab, or that of the delete key.
fn is_obeyed(byte: u8) -> bool
    ensures { result ≡ is_obeyed byte }
{
    (byte < b' ' && byte != b'\t') || byte == DELETE
}

// A byte as it is shown.
fn shown_byte(byte: u8) -> u8
    ensures { result ≡ shown_byte byte }
{
    if is_obeyed(byte) { b'?' } else { byte }
}

// A byte of lines as it is shown.
fn shown_line_byte(byte: u8) -> u8
    ensures { result ≡ shown_line_byte byte }
{
    if byte == b'\n' {
        byte
    } else {
        shown_byte(byte)
    }
}

/// Appends a text to another as it is shown: with a question mark in place of each byte that a terminal obeys by itself. What several bytes of UTF-8
/// stand for isn't looked at.
///
/// # Errors
///
/// Where memory runs out. A beginning of the text may have been appended then.
pub fn push_shown(out: &mut Vec<u8>, text: &[u8]) -> Result<(), AllocError>
    ensures { OnOk result (out.new.items ≡ out.old.items ++ shown text.now) }
{
    for byte in text {
        out.push(shown_byte(*byte))?;
    }
    Ok(())
}

/// Appends lines to a text as they are shown: line feeds stay, and each other byte is shown as by `push_shown`.
///
/// # Errors
///
/// Where memory runs out. A beginning of the lines may have been appended then.
pub fn push_shown_lines(out: &mut Vec<u8>, lines: &[u8]) -> Result<(), AllocError>
    ensures { OnOk result (out.new.items ≡ out.old.items ++ shown_lines lines.now) }
{
    for byte in lines {
        out.push(shown_line_byte(*byte))?;
    }
    Ok(())
}
