//! The report below a refusal on the earlier rule, with which the refused one conflicts.

ghost use Rattle.std.specs.Prelude.{◌≡◌, ◌++◌, OnOk};
ghost use Rattle.aatry_check.specs.Others.{other_lines, other_text, other_words, with_other, with_other_text};
ghost use Rattle.aatry_report.specs.Faults.{marked_line};
ghost use Rattle.aatry_report.specs.SeenRecord.{seen_record};

use aa_text_files::{Files, Place};
use aatry_report::{
    Record, line_at, line_place, path_below, push_caret_line, push_place, push_shown,
};
use std::alloc::{AllocError, Global};

// Appends the line of a place to a text, and a line with a caret below the place.
fn push_marked_line(out: &mut Vec<u8>, text: &[u8], at: usize) -> Result<(), AllocError>
    ensures { OnOk result (out.new.items ≡ out.old.items ++ marked_line text.now at) }
{
    push_shown(out, line_at(text, at))?;
    out.push(b'\n')?;
    push_caret_line(text, at, out)?;
    out.push(b'\n')?;
    Ok(())
}

// Appends the words that follow the place of the rule to a text, and the line's end.
fn push_other_words(out: &mut Vec<u8>) -> Result<(), AllocError>
    ensures { OnOk result (out.new.items ≡ out.old.items ++ other_words) }
{
    out.extend_from_slice(b"the rule before it\n")?;
    Ok(())
}

// Appends the place of the rule in a file to a text, its line, and a line with a caret below the place.
fn push_other_text(out: &mut Vec<u8>, path: &[u8], text: &[u8], at: usize) -> Result<(), AllocError>
    ensures { OnOk result (out.new.items ≡ out.old.items ++ other_text path.now text.now at) }
{
    push_place(out, path, line_place(text, at))?;
    push_other_words(out)?;
    push_marked_line(out, text, at)
}

/// Appends the place of the rule in one of the files below a folder to a text, its line, and a line with a caret below the place.
///
/// # Errors
///
/// Where memory runs out. A beginning may have been appended then.
pub fn push_other(
    alloc: Global,
    files: &Files,
    base: &[u8],
    place: Place,
    out: &mut Vec<u8>,
) -> Result<(), AllocError>
    ensures { OnOk result (out.new.items ≡ out.old.items ++ other_lines files.now base.now place) }
{
    let path = path_below(alloc, base, files.name_at(place.file))?;
    push_other_text(out, &path, files.bytes_at(place.file), place.at)
}

// Puts the place of the rule in a file into a record, and its line.
fn put_other_text(
    alloc: Global,
    path: &[u8],
    text: &[u8],
    at: usize,
    into: &mut Record,
) -> Result<(), AllocError>
    ensures { OnOk result (seen_record into.new ≡ with_other_text path.now text.now at (seen_record into.old)) }
{
    let place = line_place(text, at);
    into.put_text(alloc, "other_file", path)?;
    into.put_number(alloc, "other_line", place.line)?;
    into.put_number(alloc, "other_column", place.column)?;
    into.put_text(alloc, "other_text", line_at(text, at))
}

/// Puts the place of the rule in one of the files below a folder into a record, and its line.
///
/// # Errors
///
/// Where memory runs out.
pub fn put_other(
    alloc: Global,
    files: &Files,
    base: &[u8],
    place: Place,
    into: &mut Record,
) -> Result<(), AllocError>
    ensures { OnOk result (seen_record into.new ≡ with_other files.now base.now place (seen_record into.old)) }
{
    let path = path_below(alloc, base, files.name_at(place.file))?;
    put_other_text(alloc, &path, files.bytes_at(place.file), place.at, into)
}
