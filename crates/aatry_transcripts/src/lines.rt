//! The lines of a text, and of a transcript.

ghost use Rattle.std.specs.Prelude.{◌≡◌, ◌+◌, ◌<◌, ◌≤◌, ◌++◌, ◌∷◌, [], IfOk, OnOk, drop, if◌then◌else◌, length, map};
ghost use Rattle.std.specs.Str.Lines.{strip_carriage_return};
ghost use Rattle.aa_bytes.specs.Texts.{is_empty};
ghost use Rattle.aa_set_commands.specs.Lines.{lines};
ghost use Rattle.aatry_transcripts.specs.Transcripts.{texts, transcript_lines};

use aa_set_commands::first_line;
use std::alloc::{AllocError, Global};

// Appends a last line to `lines`, unless it is empty.
fn push_last<'a>(lines: &mut Vec<&'a [u8]>, last: &'a [u8]) -> Result<(), AllocError>
    ensures { OnOk result (texts lines.new.items ≡ texts lines.old.items ++ (if is_empty last.now then [] else last.now ∷ [])) }
{
    if last.is_empty() {
        return Ok(());
    }
    lines.push(last)?;
    Ok(())
}

/// The lines of a text, each without its line feed: what is between these, the last one only where it isn't empty.
///
/// # Errors
///
/// Where memory runs out.
pub fn lines_of<'a>(alloc: Global, text: &'a [u8]) -> Result<Vec<&'a [u8]>, AllocError>
    ensures { IfOk result (λ found. texts found.items ≡ lines text.now) }
{
    let mut found = Vec::new(alloc);
    let mut rest = text;
    while let Some((line, after)) = first_line(rest) {
        found.push(line)?;
        rest = after;
    }
    push_last(&mut found, rest)?;
    Ok(found)
}

/// A line without the one carriage return at its end, if it has one.
pub fn without_return<'a>(line: &'a [u8]) -> &'a [u8]
    ensures { result.now ≡ strip_carriage_return line.now }
{
    match line {
        [front @ .., b'\r'] => front,
        _ => line,
    }
}

/// Lines without the one carriage return at the end of each, if it has one.
///
/// # Errors
///
/// Where memory runs out.
pub fn without_returns<'a>(alloc: Global, lines: &[&'a [u8]]) -> Result<Vec<&'a [u8]>, AllocError>
    ensures { IfOk result (λ found. texts found.items ≡ map strip_carriage_return (texts lines.now)) }
{
    let mut found = Vec::with_capacity(alloc, lines.len())?;
    for line in lines {
        found.push(without_return(*line))?;
    }
    Ok(found)
}

/// The lines of a transcript, like those of `lines_of`, each also without the carriage return by which other systems end a line.
///
/// # Errors
///
/// Where memory runs out.
pub fn transcript_lines<'a>(alloc: Global, text: &'a [u8]) -> Result<Vec<&'a [u8]>, AllocError>
    ensures { IfOk result (λ found. texts found.items ≡ transcript_lines text.now) }
{
    let lines = lines_of(alloc, text)?;
    without_returns(alloc, &lines)
}

/// The line at an index, which is below their number.
pub fn line_at<'a>(at: usize, lines: &[&'a [u8]]) -> &'a [u8]
    requires { at < length lines.now }
    ensures { texts (drop at lines.now) ≡ result.now ∷ texts (drop (at + 1) lines.now) }
{
    lines[at]
}

/// The lines after the first `size`; none where there are fewer.
pub fn lines_behind<'l, 'a>(size: usize, lines: &'l [&'a [u8]]) -> &'l [&'a [u8]]
    requires { size ≤ length lines.now }
    ensures { result.now ≡ drop size lines.now }
{
    let (_, behind) = lines.split_at(size);
    behind
}
