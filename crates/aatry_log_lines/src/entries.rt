//! What lines of a log hold, and when they were logged.

ghost use Rattle.std.specs.Prelude.{◌≡◌, IfOk};
ghost use Rattle.aatry_log_lines.specs.Entries.{entry_by, entry_of, seen_entry, unreadable_entry};
ghost use Rattle.aatry_log_lines.specs.Selections.{seen_selection};

use crate::lines::{LogLine, told_by_message};
use crate::messages::{Message, message_in};
use crate::selections::{Selection, is_passed_over};
use crate::stamps::time_in;
use std::alloc::{AllocError, Global};

/// What a line of a log holds.
#[derive(Drop)]
pub struct LogEntry<'a> {
    /// What it holds.
    pub told: LogLine<'a>,
    /// When that was logged, in seconds since 1970, where the line has a stamp.
    pub time: Option<u64>,
    /// Whether the line is passed over, since it isn't one of the selected lines.
    pub is_passed_over: bool,
}

impl<'a> LogEntry<'a> {
    /// The entry of a line that can't be read: it isn't known what it asks, nor when it was logged, nor whether it is selected. It takes no memory.
    pub fn unreadable() -> LogEntry<'a>
        ensures { seen_entry result ≡ unreadable_entry }
    {
        LogEntry {
            told: LogLine::Unreadable,
            time: None,
            is_passed_over: false,
        }
    }

    /// The same entry, which borrows from no line.
    ///
    /// # Errors
    ///
    /// Where memory runs out.
    pub fn into_owned<'b>(self, alloc: Global) -> Result<LogEntry<'b>, AllocError>
        ensures { IfOk result (λ owned. seen_entry owned ≡ seen_entry self.entry) }
    {
        let LogEntry {
            told,
            time,
            is_passed_over,
        } = self;
        Ok(LogEntry {
            told: told.into_owned(alloc)?,
            time,
            is_passed_over,
        })
    }
}

// The entry of a message.
fn entry_of<'a>(
    alloc: Global,
    selection: Selection<'_>,
    message: &'a [u8],
) -> Result<LogEntry<'a>, AllocError>
    ensures { IfOk result (λ entry. seen_entry entry ≡ entry_of (seen_selection selection.entry) message.now) }
{
    let is_passed_over = is_passed_over(alloc, selection, message)?;
    Ok(LogEntry {
        told: told_by_message(alloc, message)?,
        time: time_in(message),
        is_passed_over,
    })
}

/// The entry of a line of a log: what it holds, as `told_by` returns it, when it was logged, and whether the line is passed over by the selection. A
/// record of the journal is read once.
///
/// # Errors
///
/// Where memory runs out.
pub fn entry_by<'a>(
    alloc: Global,
    selection: Selection<'_>,
    line: &'a [u8],
) -> Result<LogEntry<'a>, AllocError>
    ensures { IfOk result (λ entry. seen_entry entry ≡ entry_by (seen_selection selection.entry) line.now) }
{
    match message_in(alloc, line)? {
        Message::NoMessage => entry_of(alloc, selection, line),
        Message::Whole(message) => entry_of(alloc, selection, &message)?.into_owned(alloc),
        Message::Broken => Ok(LogEntry::unreadable()),
    }
}
