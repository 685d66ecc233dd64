//! The line below another that points at a place in it.

ghost use Rattle.std.specs.Prelude.{◌≡◌, ◌++◌, ◌+◌, ◌<◌, ◌≤◌, OnErr, OnOk, length, vec_capacity, vec_len};
ghost use Rattle.aatry_report.specs.CaretLine.{blank_below, blanks_below, caret_line};
ghost use Rattle.aatry_report.specs.Characters.{character_count};

use crate::line::before_in_line;
use crate::place::{begins_character, character_count};
use std::alloc::AllocError;

// The byte below a character with which the next one is below what follows it.
fn blank_below(byte: u8) -> u8
    ensures { result ≡ blank_below byte }
{
    if byte == b'\t' { b'\t' } else { b' ' }
}

// Appends the bytes below a text, for which there is room.
fn push_blanks_below(text: &[u8], out: &mut Vec<u8>)
    requires { vec_len out.old + character_count text.now ≤ vec_capacity out.old }
    ensures items { out.new.items ≡ out.old.items ++ blanks_below text.now }
    ensures len { vec_len out.new ≡ vec_len out.old + character_count text.now }
    ensures capacity { vec_capacity out.new ≡ vec_capacity out.old }
{
    for byte in text {
        if begins_character(*byte) {
            out.push_reserved(blank_below(*byte));
        }
    }
}

/// Appends the line that points at the byte at an offset from below its line: a tab for each tab before it in the line, a space for each other
/// character before it, and `^`. So the caret is in the right column whatever a tab's width is, where each character is as wide as one column.
/// Characters are counted as in `line_place`, and no line feed is appended.
///
/// # Errors
///
/// Where there is no room for it in `out` and memory runs out. What `out` holds is then as it was.
pub fn push_caret_line(text: &[u8], at: usize, out: &mut Vec<u8>) -> Result<(), AllocError>
    ensures ok { OnOk result (out.new.items ≡ out.old.items ++ caret_line text.now at) }
    ensures err { OnErr result (out.new.items ≡ out.old.items) }
    ensures full { OnErr result (vec_capacity out.old < vec_len out.old + length (caret_line text.now at)) }
{
    let front = before_in_line(text, at);
    out.reserve(character_count(front) + 1)?;
    push_blanks_below(front, out);
    out.push_reserved(b'^');
    Ok(())
}
