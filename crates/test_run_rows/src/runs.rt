//! Rows of runs.

use crate::cuts::ask_cuts;
use crate::failing::{ask_failing, ask_pieces, ask_within};
use crate::outcome::outcome_of;
use crate::streams::Calls;
use crate::wanted::{Wanted, compare, read_wanted};
use aa_set::{FromRead, ToWrite};
use aa_text::Files;
use test_row_texts::{Part, RowError, Tally, take_files};

// Runs with an input that comes whole.
fn ask_whole(tally: &mut Tally, files: &Files, wanted: Wanted<'_>) -> Result<(), RowError> {
    let mut writer = ToWrite::new(Vec::new(tally.alloc()));
    let mut reader = FromRead::new(wanted.input);
    let outcome = outcome_of(tally.alloc(), files, wanted, &mut reader, &mut writer);
    compare(tally, wanted, outcome, &writer.into_inner())
}

// Runs with the streams of a line.
fn ask_line(
    tally: &mut Tally,
    files: &Files,
    wanted: Wanted<'_>,
    line: &str,
) -> Result<(), RowError> {
    if let Some(line) = line.strip_prefix("fault ") {
        return ask_failing(tally, files, wanted, line);
    }
    if let Some(line) = line.strip_prefix("within ") {
        return ask_within(tally, files, wanted, line);
    }
    match line.strip_prefix("cuts ") {
        Some(line) => ask_cuts(tally, files, wanted, line),
        None => Ok(()),
    }
}

// Runs the input of a paragraph: whole, byte by byte, and with the streams of its lines.
fn ask_parts(tally: &mut Tally, files: &Files, parts: &[Part<'_>]) -> Result<(), RowError> {
    let wanted = read_wanted(parts)?;
    let bytes = Calls {
        first: 1,
        size: 1,
        failing: 0,
    };
    ask_whole(tally, files, wanted)?;
    ask_pieces(tally, files, wanted, bytes)?;
    for part in parts {
        ask_line(tally, files, wanted, part.head)?;
    }
    Ok(())
}

// Runs over the files of the paragraphs above and of this one.
fn ask_files(
    tally: &mut Tally,
    files: &mut Files,
    common: &[Part<'_>],
    parts: &[Part<'_>],
) -> Result<(), RowError> {
    take_files(tally.alloc(), files, common)?;
    take_files(tally.alloc(), files, parts)?;
    ask_parts(tally, files, parts)
}

/// Asks the row that a paragraph is.
pub fn ask_run_rows(
    tally: &mut Tally,
    common: &[Part<'_>],
    parts: &[Part<'_>],
) -> Result<(), RowError> {
    let Some(first) = parts.first() else {
        return Ok(());
    };
    tally.begin(first.line);
    let mut files = Files::new(tally.alloc());
    ask_files(tally, &mut files, common, parts)
}
