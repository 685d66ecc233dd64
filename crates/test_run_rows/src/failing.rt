//! Runs with streams that fail, and with few reads.

use crate::outcome::outcome_of;
use crate::streams::{Calls, Pieces, Takes};
use crate::wanted::{Wanted, compare};
use aa_set::{FromRead, ToWrite, run_with_in};
use aa_text::Files;
use test_row_texts::{RowError, Tally, number_of, split_at};

// Runs with a reader of such calls, by so many reads.
fn ask_reads(
    tally: &mut Tally,
    files: &Files,
    wanted: Wanted<'_>,
    calls: Calls,
    reads: u32,
) -> Result<(), RowError> {
    let mut writer = ToWrite::new(Vec::new(tally.alloc()));
    let mut reader = Pieces::new(wanted.input, calls);
    let outcome = run_with_in(
        tally.alloc(),
        wanted.language,
        files,
        wanted.force_complain,
        reads,
        &mut reader,
        &mut writer,
    );
    compare(tally, wanted, outcome, &writer.into_inner())
}

/// Runs with a reader of such calls.
pub fn ask_pieces(
    tally: &mut Tally,
    files: &Files,
    wanted: Wanted<'_>,
    calls: Calls,
) -> Result<(), RowError> {
    let mut writer = ToWrite::new(Vec::new(tally.alloc()));
    let mut reader = Pieces::new(wanted.input, calls);
    let outcome = outcome_of(tally.alloc(), files, wanted, &mut reader, &mut writer);
    compare(tally, wanted, outcome, &writer.into_inner())
}

/// Runs with a writer of such calls.
pub fn ask_takes(
    tally: &mut Tally,
    files: &Files,
    wanted: Wanted<'_>,
    calls: Calls,
) -> Result<(), RowError> {
    let mut writer = Takes::new(Vec::new(tally.alloc()), calls);
    let mut reader = FromRead::new(wanted.input);
    let outcome = outcome_of(tally.alloc(), files, wanted, &mut reader, &mut writer);
    compare(tally, wanted, outcome, writer.written())
}

// `NUMBER of SIZE`, or `NUMBER of FIRST then SIZE`: a number, and how many bytes the first call and each other moves.
fn read_calls(text: &str) -> Result<(usize, Calls), RowError> {
    let (number, sizes) = split_at(text, " of ")?;
    let (first, size) = match sizes.split_once(" then ") {
        Some(sizes) => sizes,
        None => (sizes, sizes),
    };
    let first = number_of(first)?;
    let size = number_of(size)?;
    let calls = Calls {
        first,
        size,
        failing: 0,
    };
    Ok((number_of(number)?, calls))
}

/// What is wanted of a run that stops with a fault once so many bytes of the output are written.
pub fn stopped<'a>(
    whole: Wanted<'a>,
    count: usize,
    fault: &'a str,
) -> Result<Wanted<'a>, RowError> {
    match whole.output.get(..count) {
        Some(output) => Ok(Wanted {
            language: whole.language,
            force_complain: whole.force_complain,
            input: whole.input,
            output,
            end: fault,
        }),
        None => Err(RowError::ShortOutput),
    }
}

// The same calls, of which one fails.
fn failing_at(calls: Calls, failing: usize) -> Calls {
    Calls {
        first: calls.first,
        size: calls.size,
        failing: failing as u64,
    }
}

// A number of reads.
fn reads_of(number: usize) -> Result<u32, RowError> {
    match u32::try_from(number) {
        Ok(reads) => Ok(reads),
        Err(_) => Err(RowError::NotANumber),
    }
}

/// `STREAM NUMBER of SIZE written COUNT`: runs with a stream that fails at the call of this number, or with so many reads. A prefix of the output is
/// written, and the run ends with a fault.
pub fn ask_failing(
    tally: &mut Tally,
    files: &Files,
    whole: Wanted<'_>,
    line: &str,
) -> Result<(), RowError> {
    let (calls, count) = split_at(line, " written ")?;
    let (stream, calls) = split_at(calls, " ")?;
    let (number, calls) = read_calls(calls)?;
    let count = number_of(count)?;
    match stream {
        "Read" => {
            let wanted = stopped(whole, count, "Read")?;
            ask_pieces(tally, files, wanted, failing_at(calls, number))
        }
        "Write" => {
            let wanted = stopped(whole, count, "Write")?;
            ask_takes(tally, files, wanted, failing_at(calls, number))
        }
        "Reads" => {
            let wanted = stopped(whole, count, "Read")?;
            ask_reads(tally, files, wanted, calls, reads_of(number)?)
        }
        _ => Err(RowError::NoSuchStream),
    }
}

/// `READS of SIZE`: runs with so many reads, within which the input ends.
pub fn ask_within(
    tally: &mut Tally,
    files: &Files,
    wanted: Wanted<'_>,
    line: &str,
) -> Result<(), RowError> {
    let (number, calls) = read_calls(line)?;
    ask_reads(tally, files, wanted, calls, reads_of(number)?)
}
