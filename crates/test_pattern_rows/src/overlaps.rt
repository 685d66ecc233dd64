//! Rows of patterns that overlap.

use aa_glob::{Pattern, overlap};
use test_row_texts::{RowError, Tally, answer_of, yes_or_no};

// Asks whether a text matches both of two patterns: both ways round.
fn ask_pair(
    tally: &mut Tally,
    one: &Pattern,
    other: &Pattern,
    wanted: &[u8],
) -> Result<(), RowError> {
    let answered = overlap(tally.alloc(), one, other)?;
    tally.compare("overlap", wanted, yes_or_no(answered))?;
    let answered = overlap(tally.alloc(), other, one)?;
    tally.compare("overlap the other way round", wanted, yes_or_no(answered))
}

// Asks whether a pattern overlaps with that of a text.
fn ask_text(
    tally: &mut Tally,
    pattern: &Pattern,
    wanted: &[u8],
    text: &[u8],
) -> Result<(), RowError> {
    match Pattern::read(tally.alloc(), text) {
        Ok(other) => ask_pair(tally, pattern, &other, wanted),
        Err(error) => tally.compare("read", b"a pattern", error.name().as_bytes()),
    }
}

// Asks with which texts' patterns one overlaps: with those after `yes`, and not with those after `no`.
fn ask_texts(tally: &mut Tally, pattern: &Pattern, words: &[Vec<u8>]) -> Result<(), RowError> {
    let mut wanted = b"yes".as_slice();
    for word in words {
        match answer_of(word) {
            Some(answer) => wanted = answer,
            None => ask_text(tally, pattern, wanted, word)?,
        }
    }
    Ok(())
}

/// `overlap PATTERN yes PATTERN.. no PATTERN..`
pub fn ask(tally: &mut Tally, text: &[u8], words: &[Vec<u8>]) -> Result<(), RowError> {
    match Pattern::read(tally.alloc(), text) {
        Ok(pattern) => ask_texts(tally, &pattern, words),
        Err(error) => tally.compare("read", b"a pattern", error.name().as_bytes()),
    }
}
