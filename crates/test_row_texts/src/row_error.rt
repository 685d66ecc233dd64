//! Why a row can't be asked.

use std::alloc::{AllocError, AllocFailed};
use std::error::Error;
use std::fmt::{self, Debug, Display, Formatter, Write};

/// Why a row can't be asked: it isn't one of its kind, or memory ran out.
#[derive(Clone, Copy)]
pub enum RowError {
    /// A file can't be handed in.
    BadFile,
    /// A sign of a text is none of those that there are.
    BadSign,
    /// A part of the row is missing.
    MissingPart,
    /// A line of the row is missing.
    MissingLine,
    /// The row has no number.
    NoNumber,
    /// A repetition has no number.
    NoTimes,
    /// The file's rows are of no kind.
    NoSuchKind,
    /// No language has this word.
    NoSuchLanguage,
    /// No row of patterns is of this kind.
    NoSuchPatternRow,
    /// No row of variables is of this kind.
    NoSuchVariableRow,
    /// No row of files is of this kind.
    NoSuchFileRow,
    /// No row of tables is of this kind.
    NoSuchTableRow,
    /// A type has no such variant.
    NoSuchVariant,
    /// No stream has this name.
    NoSuchStream,
    /// A number was expected.
    NotANumber,
    /// The row has only one word.
    OneWord,
    /// The output is shorter than its front is to be.
    ShortOutput,
    /// Memory ran out.
    Memory,
}

impl Display for RowError {
    fn fmt<W: Write>(&self, f: &mut Formatter<W>) -> fmt::Result {
        f.write_str(match self {
            RowError::BadFile => "a file can't be handed in",
            RowError::BadSign => "a sign can't be read",
            RowError::MissingPart => "a part of the row is missing",
            RowError::MissingLine => "a line of the row is missing",
            RowError::NoNumber => "no number",
            RowError::NoTimes => "a repetition has no number",
            RowError::NoSuchKind => "no rows are of this kind",
            RowError::NoSuchLanguage => "no language has this word",
            RowError::NoSuchPatternRow => "no such row of patterns",
            RowError::NoSuchVariableRow => "no such row of variables",
            RowError::NoSuchFileRow => "no such row of files",
            RowError::NoSuchTableRow => "no such row of tables",
            RowError::NoSuchVariant => "no such variant",
            RowError::NoSuchStream => "no such stream",
            RowError::NotANumber => "a number was expected",
            RowError::OneWord => "a row of one word",
            RowError::ShortOutput => "the output is shorter",
            RowError::Memory => "memory ran out",
        })
    }
}

impl Debug for RowError {
    fn fmt<W: Write>(&self, f: &mut Formatter<W>) -> fmt::Result {
        Display::fmt(self, f)
    }
}

impl Error for RowError {}

impl From<AllocError> for RowError {
    fn from(_: AllocError) -> Self {
        RowError::Memory
    }
}

impl<T: Drop> From<AllocFailed<T>> for RowError {
    fn from(_: AllocFailed<T>) -> Self {
        RowError::Memory
    }
}
