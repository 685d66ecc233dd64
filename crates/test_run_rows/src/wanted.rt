//! What a run reads, and what it is to write.

use aa_set::{Language, RunFault, Summary};
use test_row_texts::{Part, RowError, Tally, find, put_number};

/// What a run reads, what it is to write, and how it is to end: its counts, or its fault.
#[derive(Clone, Copy, Drop)]
pub struct Wanted<'a> {
    /// The language by which files are read.
    pub language: Language,
    /// Whether profiles are loaded in complain mode.
    pub force_complain: bool,
    pub input: &'a [u8],
    pub output: &'a [u8],
    pub end: &'a str,
}

// The language of a paragraph: 3, where no line names another.
fn language_of(parts: &[Part<'_>]) -> Result<Language, RowError> {
    for part in parts {
        if let Some(word) = part.head.strip_prefix("option --language ") {
            return Language::named(word.as_bytes()).ok_or(RowError::NoSuchLanguage);
        }
    }
    Ok(Language::Three)
}

/// What the run of a paragraph reads, and what is wanted.
pub fn read_wanted<'a>(parts: &'a [Part<'_>]) -> Result<Wanted<'a>, RowError> {
    let (_, input) = find(parts, "input")?;
    let (_, output) = find(parts, "output")?;
    let (end, _) = find(parts, "end ")?;
    let force_complain = parts.iter().any(|part| part.head == "option -C");
    Ok(Wanted {
        language: language_of(parts)?,
        force_complain,
        input,
        output,
        end,
    })
}

// Appends a count to bytes.
fn put_count(bytes: &mut Vec<u8>, count: u64) -> Result<(), RowError> {
    put_number(bytes, count as usize)
}

// Appends how many commands were accepted and how many refused to bytes.
fn put_summary(bytes: &mut Vec<u8>, summary: Summary) -> Result<(), RowError> {
    put_count(bytes, summary.accepted)?;
    bytes.extend_from_slice(b" ")?;
    put_count(bytes, summary.refused)
}

// The word of a fault.
fn fault_word(fault: RunFault) -> &'static [u8] {
    match fault {
        RunFault::Read => b"Read",
        RunFault::Write => b"Write",
        RunFault::Memory => b"Memory",
    }
}

// Appends how a run ended to bytes, as rows write it.
fn put_end(bytes: &mut Vec<u8>, outcome: Result<Summary, RunFault>) -> Result<(), RowError> {
    match outcome {
        Ok(summary) => put_summary(bytes, summary),
        Err(fault) => {
            bytes.extend_from_slice(fault_word(fault))?;
            Ok(())
        }
    }
}

/// Compares how a run ended and what it wrote with what is wanted. The one error is that of memory.
pub fn compare(
    tally: &mut Tally,
    wanted: Wanted<'_>,
    outcome: Result<Summary, RunFault>,
    written: &[u8],
) -> Result<(), RowError> {
    tally.compare("output", wanted.output, written)?;
    tally.wanted.extend_from_slice(wanted.end.as_bytes())?;
    put_end(&mut tally.answered, outcome)?;
    tally.settle("end")
}
