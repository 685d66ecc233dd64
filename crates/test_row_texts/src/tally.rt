//! What became of the rows of a file.

use crate::row_error::RowError;
use percent_encoding::{AsciiSet, CONTROLS, percent_encode};
use std::alloc::Global;

/// How many rows of a file were asked, how many were answered otherwise, and how those were answered. It has room for what a row
/// wants and for what was answered.
#[derive(Drop)]
pub struct Tally {
    alloc: Global,
    // the line of the row that is asked or of the paragraph that was reached, and of the last row that was answered otherwise
    line: usize,
    wrong_line: usize,
    rows: usize,
    wrong: usize,
    report: String,
    /// What the row wants to be answered, before `settle`.
    pub wanted: Vec<u8>,
    /// What was answered, before `settle`.
    pub answered: Vec<u8>,
}

// What is written as `%XX`.
fn hidden() -> AsciiSet {
    CONTROLS.add(b'%')
}

// Appends bytes to a text, as a row would have them, and a line feed.
fn put_shown(text: &mut String, bytes: &[u8]) -> Result<(), RowError> {
    percent_encode(bytes, hidden()).append_to(text)?;
    text.push_str("\n")?;
    Ok(())
}

// Appends the line of a row to a text, and what was asked.
fn put_asked(text: &mut String, alloc: Global, line: usize, what: &str) -> Result<(), RowError> {
    let line = format!(in alloc; "line {line}: {what}\n")?;
    text.push_str(line.as_str())?;
    Ok(())
}

// Appends what was wanted and answered to a text.
fn put_answers(text: &mut String, wanted: &[u8], answered: &[u8]) -> Result<(), RowError> {
    text.push_str("  wanted ")?;
    put_shown(text, wanted)?;
    text.push_str("  told   ")?;
    put_shown(text, answered)
}

impl Tally {
    /// A tally of no rows.
    pub(super) fn new(alloc: Global) -> Tally {
        Tally {
            alloc,
            line: 0,
            wrong_line: 0,
            rows: 0,
            wrong: 0,
            report: String::new(alloc),
            wanted: Vec::new(alloc),
            answered: Vec::new(alloc),
        }
    }

    /// Where memory comes from.
    pub fn alloc(&self) -> Global {
        self.alloc
    }

    /// The line of the row that is asked, or of a paragraph that was reached since.
    pub(super) fn line(&self) -> usize {
        self.line
    }

    /// How many rows were asked.
    pub(super) fn rows(&self) -> usize {
        self.rows
    }

    /// How many rows were answered otherwise.
    pub(super) fn wrong(&self) -> usize {
        self.wrong
    }

    /// Three lines for each answer that was another one.
    pub(super) fn report(&self) -> &str {
        self.report.as_str()
    }

    /// Reaches the paragraph at a line.
    pub(super) fn reach(&mut self, line: usize) {
        self.line = line;
    }

    /// Begins the row at a line.
    pub fn begin(&mut self, line: usize) {
        self.line = line;
        self.rows = self.rows.saturating_add(1);
    }

    // Counts the row as answered otherwise, once.
    fn count_wrong(&mut self) {
        if self.wrong_line != self.line {
            self.wrong_line = self.line;
            self.wrong = self.wrong.saturating_add(1);
        }
    }

    /// Compares what a row wants to be answered with what was answered. The one error is that of memory.
    pub fn compare(&mut self, what: &str, wanted: &[u8], answered: &[u8]) -> Result<(), RowError> {
        if wanted == answered {
            return Ok(());
        }
        self.count_wrong();
        put_asked(&mut self.report, self.alloc, self.line, what)?;
        put_answers(&mut self.report, wanted, answered)
    }

    /// Compares `wanted` with `answered`, and empties both. The one error is that of memory.
    pub fn settle(&mut self, what: &str) -> Result<(), RowError> {
        if self.wanted.as_slice() != self.answered.as_slice() {
            self.count_wrong();
            put_asked(&mut self.report, self.alloc, self.line, what)?;
            put_answers(&mut self.report, &self.wanted, &self.answered)?;
        }
        self.wanted.clear();
        self.answered.clear();
        Ok(())
    }
}
