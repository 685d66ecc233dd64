//! The line of a place.

ghost use Rattle.std.specs.Prelude.{◌≡◌, ◌≤◌, drop, length, take};
ghost use Rattle.std.specs.Str.Lines.{strip_carriage_return};
ghost use Rattle.aatry_report.specs.Lines.{first_line, last_line, line_at, whole_line_at};

use aa_bytes::{behind, length_while};

// The text before a place.
pub(crate) fn before(text: &[u8], at: usize) -> &[u8]
    ensures value { result.now ≡ take at text.now }
    ensures within { length result.now ≤ length text.now }
{
    if at < text.len() { &text[..at] } else { text }
}

// Where the last line of a text begins.
fn last_line_start(text: &[u8]) -> usize
    ensures value { drop result text.now ≡ last_line text.now }
    ensures within { result ≤ length text.now }
{
    let mut start = text.len();
    while start > 0 && text[start - 1] != b'\n' {
        start -= 1;
    }
    start
}

// The part of its line before a place.
pub(crate) fn before_in_line(text: &[u8], at: usize) -> &[u8]
    ensures { result.now ≡ last_line (take at text.now) }
{
    let front = before(text, at);
    &front[last_line_start(front)..]
}

// The part of a text before its first line feed.
fn first_line(text: &[u8]) -> &[u8]
    ensures { result.now ≡ first_line text.now }
{
    &text[..length_while(text, |byte| byte != b'\n')]
}

// A line without a carriage return at its end.
fn without_carriage_return(line: &[u8]) -> &[u8]
    ensures { result.now ≡ strip_carriage_return line.now }
{
    match line {
        [front @ .., b'\r'] => front,
        _ => line,
    }
}

// The line of a place, with what may be before its line feed.
fn whole_line_at(text: &[u8], at: usize) -> &[u8]
    ensures { result.now ≡ whole_line_at text.now at }
{
    let front = before(text, at);
    let start = last_line_start(front);
    let end = front.len() + first_line(behind(at, text)).len();
    &text[start..end]
}

/// The line of the byte at an offset, from after the line feed before it up to its own, which belongs to it. Its line feed is left out, and so is a
/// carriage return directly before that or at the text's end. `O(n)` in the text's length. It takes no memory.
pub fn line_at(text: &[u8], at: usize) -> &[u8]
    ensures { result.now ≡ line_at text.now at }
{
    without_carriage_return(whole_line_at(text, at))
}
