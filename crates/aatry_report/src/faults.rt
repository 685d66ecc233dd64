//! The report on a fault in a file of policy.

ghost use Rattle.std.specs.Prelude.{◌≡◌, ◌++◌, [], None, OnOk, Some};
ghost use Rattle.aatry_report.specs.Faults.{fault_lines, line_place_text, marked_line, with_fault, with_words, words_text};
ghost use Rattle.aatry_report.specs.SeenRecord.{seen_record};

use crate::caret_line::push_caret_line;
use crate::file_places::put_place;
use crate::line::line_at;
use crate::numbers::push_number;
use crate::place::{LinePlace, line_place};
use crate::record::Record;
use crate::shown::push_shown;
use std::alloc::{AllocError, Global};

/// Appends a place in a file to a text: `PATH:LINE:COLUMN: `. `path` is the name of the file in reports.
///
/// # Errors
///
/// Where memory runs out. A beginning may have been appended then.
pub fn push_place(out: &mut Vec<u8>, path: &[u8], place: LinePlace) -> Result<(), AllocError>
    ensures { OnOk result (out.new.items ≡ out.old.items ++ line_place_text path.now place.line place.column) }
{
    push_shown(out, path)?;
    push_number(out, ":", place.line)?;
    push_number(out, ":", place.column)?;
    out.extend_from_slice(b": ")?;
    Ok(())
}

// Appends the words of a fault to a text, with its number.
fn push_words(out: &mut Vec<u8>, words: &str, number: u8) -> Result<(), AllocError>
    ensures { OnOk result (out.new.items ≡ out.old.items ++ words_text words.now number) }
{
    out.extend_from_slice(words.as_bytes())?;
    push_number(out, " (", number as usize)?;
    out.extend_from_slice(b")\n")?;
    Ok(())
}

// Puts the words of a fault into a record, with its number.
fn put_words(alloc: Global, words: &str, number: u8, into: &mut Record) -> Result<(), AllocError>
    ensures { OnOk result (seen_record into.new ≡ with_words words.now number (seen_record into.old)) }
{
    into.put_number(alloc, "number", number as usize)?;
    into.put_text(alloc, "words", words.as_bytes())
}

// Appends the line of a place to a text, and a line with a caret below the place.
fn push_marked_line(out: &mut Vec<u8>, text: &[u8], at: usize) -> Result<(), AllocError>
    ensures { OnOk result (out.new.items ≡ out.old.items ++ marked_line text.now at) }
{
    push_shown(out, line_at(text, at))?;
    out.push(b'\n')?;
    push_caret_line(text, at, out)?;
    out.push(b'\n')?;
    Ok(())
}

/// Appends a fault that has no place to a text: `PATH: WORDS (NUMBER)` on a line of its own. `path` is the name of the file in reports, `words` say
/// what is wrong, and `number` is that of the refusal (`docs/commands.md`, "Refusals").
///
/// # Errors
///
/// Where memory runs out. A beginning may have been appended then.
pub fn push_fault(out: &mut Vec<u8>, path: &[u8], words: &str, number: u8) -> Result<(), AllocError>
    ensures { OnOk result (out.new.items ≡ out.old.items ++ fault_lines words.now path.now number None []) }
{
    push_shown(out, path)?;
    out.extend_from_slice(b": ")?;
    push_words(out, words, number)
}

/// Appends a fault at a place to a text: `PATH:LINE:COLUMN: WORDS (NUMBER)`, its line, and a line with a caret below the place. `text` is the file's
/// bytes, and `at` is how many of them come before the place; lines and columns are counted from 1.
///
/// # Errors
///
/// Where memory runs out. A beginning may have been appended then.
pub fn push_fault_at(
    out: &mut Vec<u8>,
    path: &[u8],
    words: &str,
    number: u8,
    text: &[u8],
    at: usize,
) -> Result<(), AllocError>
    ensures { OnOk result (out.new.items ≡ out.old.items ++ fault_lines words.now path.now number (Some at) text.now) }
{
    push_place(out, path, line_place(text, at))?;
    push_words(out, words, number)?;
    push_marked_line(out, text, at)
}

/// Puts a fault that has no place into a record: `file`, its name in reports, `number` and `words`, like in `push_fault`.
///
/// # Errors
///
/// Where memory runs out. A part of the fault may have been put then.
pub fn put_fault(
    alloc: Global,
    path: &[u8],
    words: &str,
    number: u8,
    into: &mut Record,
) -> Result<(), AllocError>
    ensures { OnOk result (seen_record into.new ≡ with_fault words.now path.now number None [] (seen_record into.old)) }
{
    put_words(alloc, words, number, into)?;
    into.put_text(alloc, "file", path)
}

/// Puts a fault at a place into a record: what `put_fault` puts, `line` and `column` of the place, and `text`, its line. `at` is how many bytes of
/// the file's `text` come before the place.
///
/// # Errors
///
/// Where memory runs out. A part of the fault may have been put then.
pub fn put_fault_at(
    alloc: Global,
    path: &[u8],
    words: &str,
    number: u8,
    text: &[u8],
    at: usize,
    into: &mut Record,
) -> Result<(), AllocError>
    ensures { OnOk result (seen_record into.new ≡ with_fault words.now path.now number (Some at) text.now (seen_record into.old)) }
{
    put_words(alloc, words, number, into)?;
    put_place(alloc, path, line_place(text, at), into)?;
    into.put_text(alloc, "text", line_at(text, at))
}
