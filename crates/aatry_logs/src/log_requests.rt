//! What is gathered of logs.

ghost use Rattle.std.specs.Prelude.{◌≡◌, OnOk, option_map};
ghost use Rattle.aatry_log_lines.specs.Entries.{seen_entry};
ghost use Rattle.aatry_log_lines.specs.Lines.{seen_line};
ghost use Rattle.aatry_log_lines.specs.Selections.{seen_selection};
ghost use Rattle.aatry_logs.specs.Apart.{kept_line};
ghost use Rattle.aatry_logs.specs.LogRequests.{begun, nothing, one_more_if, seen_logs, with_apart, with_entry, with_line};

use crate::apart::{LinesApart, is_disconnected, is_interpreted, is_learning, is_unreadable, note};
use crate::entries::{asked_for, entry_in_log, passes_over};
use aatry_log_lines::{LogEntry, LogLine, Selection};
use aatry_requests::Requests;
use std::alloc::{AllocError, Global};

/// What is gathered of logs.
#[derive(Drop)]
pub struct LogRequests<'a> {
    /// The requests of the selected lines.
    pub requests: Requests<'a>,
    /// The selected lines that can't be read.
    pub unreadable: LinesApart,
    /// How many of them can't be since their values are interpreted, as `ausearch -i` does it.
    pub interpreted: u64,
    /// The lines with a request for a file of which the kernel knew no whole path.
    pub disconnected: LinesApart,
    /// The lines with a request of a learning profile.
    pub learning: LinesApart,
    /// How many lines are passed over that hold something on AppArmor's requests.
    pub passed_over: u64,
    // The number of the last line, in its log.
    line: u64,
}

// A count with one more, if this is one.
fn one_more_if(is_one: bool, count: u64) -> u64
    ensures { result ≡ one_more_if is_one count }
{
    if is_one {
        count.saturating_add(1)
    } else {
        count
    }
}

impl<'a> LogRequests<'a> {
    /// Nothing so far. It takes no memory.
    pub fn new(alloc: Global) -> LogRequests<'a>
        ensures { seen_logs result ≡ nothing }
    {
        LogRequests {
            requests: Requests::new(alloc),
            unreadable: LinesApart::new(alloc),
            interpreted: 0,
            disconnected: LinesApart::new(alloc),
            learning: LinesApart::new(alloc),
            passed_over: 0,
            line: 0,
        }
    }

    // Begins a further log.
    pub fn begin(&mut self)
        ensures { seen_logs self.new ≡ begun (seen_logs self.old) }
    {
        self.line = 0;
    }

    // Notes the last line of a log, if it makes no question, by what it holds.
    fn note_apart(
        &mut self,
        alloc: Global,
        file: Option<&str>,
        line: &[u8],
        told: &LogLine<'_>,
    ) -> Result<(), AllocError>
        ensures { OnOk result (seen_logs self.new
            ≡ with_apart (seen_logs self.old) (kept_line (option_map (λ path. path.now) file.entry) self.old.line line.now) (seen_line told.now)) }
    {
        let number = self.line;
        note(
            alloc,
            is_unreadable(told),
            file,
            number,
            line,
            &mut self.unreadable,
        )?;
        self.interpreted = one_more_if(is_interpreted(told), self.interpreted);
        note(
            alloc,
            is_disconnected(told),
            file,
            number,
            line,
            &mut self.disconnected,
        )?;
        note(
            alloc,
            is_learning(told),
            file,
            number,
            line,
            &mut self.learning,
        )
    }

    // Takes one more line of a log, with what it holds.
    fn take_entry(
        &mut self,
        alloc: Global,
        file: Option<&str>,
        line: &[u8],
        entry: LogEntry<'a>,
    ) -> Result<(), AllocError>
        ensures { OnOk result (seen_logs self.new
            ≡ with_entry (option_map (λ path. path.now) file.entry) line.now (seen_logs self.old) (seen_entry entry.entry)) }
    {
        self.line = self.line.saturating_add(1);
        self.passed_over = one_more_if(passes_over(&entry), self.passed_over);
        let LogEntry {
            told,
            time,
            is_passed_over,
        } = entry;
        let told = asked_for(told, is_passed_over);
        self.note_apart(alloc, file, line, &told)?;
        self.requests.note(alloc, told, time)
    }

    // Takes one more line of a log, of which nothing is borrowed.
    pub fn take_line(
        &mut self,
        alloc: Global,
        selection: Selection<'_>,
        file: Option<&str>,
        line: &[u8],
    ) -> Result<(), AllocError>
        ensures { OnOk result (seen_logs self.new
            ≡ with_line (seen_selection selection.entry) (option_map (λ path. path.now) file.entry) (seen_logs self.old) line.now) }
    {
        let entry = entry_in_log(alloc, selection, line)?;
        let owned = entry.into_owned(alloc)?;
        self.take_entry(alloc, file, line, owned)
    }
}
