//! The line and the column of a place.

ghost use Rattle.std.specs.Prelude.{◌≡◌, ◌+◌, ◌++◌, ◌≤◌, ℕ, List, length, take};
ghost use Rattle.aatry_report.specs.Characters.{begins_character, character_count};
ghost use Rattle.aatry_report.specs.Columns.{column};
ghost use Rattle.aatry_report.specs.Lines.{line_feed_count, line_number};
ghost use Rattle.aatry_report.specs.Walks.{IsOf};

use crate::line::{before, before_in_line};
use aa_bytes::behind;

/// A place in a text, by line and column.
#[derive(Clone, Copy)]
pub struct LinePlace {
    /// The number of its line, from 1.
    pub line: usize,
    /// The number of its character in its line, from 1.
    pub column: usize,
}

// How many line feeds a text has.
fn line_feed_count(text: &[u8]) -> usize
    ensures { result ≡ line_feed_count text.now }
{
    text.iter().filter(|byte| **byte == b'\n').count()
}

// Whether a byte begins a character.
pub(crate) fn begins_character(byte: u8) -> bool
    ensures { result ≡ begins_character byte }
{
    !(0x80..=0xBF).contains(&byte)
}

// How many characters a text has.
pub(crate) fn character_count(text: &[u8]) -> usize
    ensures value { result ≡ character_count text.now }
    ensures within { result ≤ length text.now }
{
    text.iter().filter(|byte| begins_character(**byte)).count()
}

/// The line and the column of the byte at an offset. A line feed is in the line that it ends. A character is counted at each byte that doesn't go on
/// another's in UTF-8 (0x80 to 0xBF do), so that each text has columns; a tab is one character. `O(n)` in the offset. It takes no memory.
pub fn line_place(text: &[u8], at: usize) -> LinePlace
    ensures line { result.line ≡ line_number text.now at }
    ensures column { result.column ≡ column text.now at }
{
    LinePlace {
        line: line_feed_count(before(text, at)) + 1,
        column: character_count(before_in_line(text, at)) + 1,
    }
}

/// A walk over a text: a place that it has reached, with its line and its column, from which a later place is found without counting anew.
#[derive(Clone, Copy)]
pub struct Walk {
    // How many bytes of the text come before the place.
    at: usize,
    // Its line and its column.
    place: LinePlace,
}

// The text between two places, of which the first isn't after the other.
fn between(text: &[u8], from: usize, to: usize) -> &[u8]
    requires { from ≤ to }
    ensures { take to text.now ≡ take from text.now ++ result.now }
{
    before(behind(from, text), to - from)
}

// The line of a place, by that of a place that isn't after it.
fn line_behind(text: &[u8], from: usize, known: usize, to: usize) -> usize
    requires order { from ≤ to }
    requires known { known ≡ line_number text.now from }
    ensures { result ≡ line_number text.now to }
{
    known + line_feed_count(between(text, from, to))
}

// The column of a place, by that of a place that isn't after it: where a line feed is between both, the characters of its own line are counted.
fn column_behind(text: &[u8], from: usize, known: usize, to: usize) -> usize
    requires order { from ≤ to }
    requires known { known ≡ column text.now from }
    ensures { result ≡ column text.now to }
{
    let part = between(text, from, to);
    if line_feed_count(part) == 0 {
        known + character_count(part)
    } else {
        character_count(before_in_line(text, to)) + 1
    }
}

impl Walk {
    /// A walk over any text, at its beginning.
    pub fn new() -> Walk
        ensures known { (text : List ℕ) → IsOf text result }
        ensures there { result.at ≡ 0 }
    {
        Walk {
            at: 0,
            place: LinePlace { line: 1, column: 1 },
        }
    }

    /// How many bytes come before the place that it has reached.
    pub fn at(self) -> usize
        ensures { result ≡ self.at }
    {
        self.at
    }

    /// The line and the column of the place that it has reached.
    pub fn place(self) -> LinePlace
        ensures { result ≡ self.place }
    {
        self.place
    }

    // The walk that has reached a place, on from this one, which isn't after it.
    fn on(self, text: &[u8], at: usize) -> Walk
        requires order { self.at ≤ at }
        requires known { IsOf text.now self }
        ensures known { IsOf text.now result }
        ensures there { result.at ≡ at }
    {
        Walk {
            at,
            place: LinePlace {
                line: line_behind(text, self.at, self.place.line, at),
                column: column_behind(text, self.at, self.place.column, at),
            },
        }
    }

    /// The walk of this text that has reached the place of the byte at an offset: on from where it is, or from the text's beginning where that place
    /// is before it. So places that come in the text's order take one walk over it. It takes no memory.
    pub fn to(self, text: &[u8], at: usize) -> Walk
        requires known { IsOf text.now self }
        ensures known { IsOf text.now result }
        ensures there { result.at ≡ at }
    {
        if self.at <= at {
            self.on(text, at)
        } else {
            Walk::new().on(text, at)
        }
    }
}
