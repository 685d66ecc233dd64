//! Runs whose streams are cut at each place.

use crate::failing::{ask_pieces, ask_takes, stopped};
use crate::outcome::outcome_of;
use crate::streams::Calls;
use crate::wanted::{Wanted, compare};
use aa_set::{FromRead, ToWrite};
use aa_text::Files;
use std::alloc::Global;
use test_row_texts::{RowError, Tally, number_of};

// The numbers of a line.
fn read_numbers(alloc: Global, line: &str) -> Result<Vec<usize>, RowError> {
    let mut numbers = Vec::new(alloc);
    for word in line.split_whitespace() {
        numbers.push(number_of(word)?)?;
    }
    Ok(numbers)
}

// How long the output is once the whole lines of these bytes are answered.
fn answered(bytes: &[u8], ends: &[usize]) -> Result<usize, RowError> {
    let lines = bytes.iter().filter(|byte| **byte == b'\n').count();
    match lines.checked_sub(1) {
        Some(last) => match ends.get(last) {
            Some(end) => Ok(*end),
            None => Err(RowError::NoNumber),
        },
        None => Ok(0),
    }
}

// Runs with an input that comes in two pieces, the first of so many bytes.
fn ask_two_pieces(
    tally: &mut Tally,
    files: &Files,
    whole: Wanted<'_>,
    at: usize,
) -> Result<(), RowError> {
    let calls = Calls {
        first: at,
        size: usize::MAX,
        failing: 0,
    };
    ask_pieces(tally, files, whole, calls)
}

// Runs with a reader that fails after these bytes of the input: the whole lines of them are answered.
fn ask_front(
    tally: &mut Tally,
    files: &Files,
    whole: Wanted<'_>,
    front: &[u8],
    ends: &[usize],
) -> Result<(), RowError> {
    let calls = Calls {
        first: front.len(),
        size: 0,
        failing: if front.is_empty() { 1 } else { 2 },
    };
    let wanted = stopped(whole, answered(front, ends)?, "Read")?;
    ask_pieces(tally, files, wanted, calls)
}

// Runs with an input that is cut at each place, where its reader goes on or fails.
fn ask_reader(
    tally: &mut Tally,
    files: &Files,
    whole: Wanted<'_>,
    ends: &[usize],
) -> Result<(), RowError> {
    for (at, _) in whole.input.iter().enumerate() {
        let (front, _) = whole.input.split_at(at);
        ask_front(tally, files, whole, front, ends)?;
        if at > 0 {
            ask_two_pieces(tally, files, whole, at)?;
        }
    }
    ask_front(tally, files, whole, whole.input, ends)
}

// Runs with a writer that has room for so many bytes, and takes nothing after them.
fn ask_full(
    tally: &mut Tally,
    files: &Files,
    whole: Wanted<'_>,
    room: usize,
) -> Result<(), RowError> {
    let wanted = stopped(whole, room, "Write")?;
    let mut taken = vec![in tally.alloc(); 0u8; room]?;
    let mut writer = ToWrite::new(taken.as_mut_slice());
    let mut reader = FromRead::new(wanted.input);
    let outcome = outcome_of(tally.alloc(), files, wanted, &mut reader, &mut writer);
    compare(tally, wanted, outcome, taken.as_slice())
}

// Runs with a writer that takes so many bytes, one a write, and then fails.
fn ask_broken(
    tally: &mut Tally,
    files: &Files,
    whole: Wanted<'_>,
    room: usize,
) -> Result<(), RowError> {
    let calls = Calls {
        first: 1,
        size: 1,
        failing: (room as u64).saturating_add(1),
    };
    let wanted = stopped(whole, room, "Write")?;
    ask_takes(tally, files, wanted, calls)
}

// Runs with each writer that has no room for the whole output.
fn ask_writer(tally: &mut Tally, files: &Files, whole: Wanted<'_>) -> Result<(), RowError> {
    for (room, _) in whole.output.iter().enumerate() {
        ask_full(tally, files, whole, room)?;
        ask_broken(tally, files, whole, room)?;
    }
    Ok(())
}

/// `END END ..`, a number for each line of the input: how long the output is once that line is answered. Runs with an input that comes
/// in two pieces, with a reader that fails, and with a writer that fails or takes nothing, at each place.
pub fn ask_cuts(
    tally: &mut Tally,
    files: &Files,
    whole: Wanted<'_>,
    line: &str,
) -> Result<(), RowError> {
    let ends = read_numbers(tally.alloc(), line)?;
    ask_reader(tally, files, whole, &ends)?;
    ask_writer(tally, files, whole)
}
