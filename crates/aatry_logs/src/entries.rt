//! What lines of a log hold.

ghost use Rattle.std.specs.Prelude.{◌≡◌, IfOk, if◌then◌else◌};
ghost use Rattle.aatry_log_lines.specs.Entries.{seen_entry};
ghost use Rattle.aatry_log_lines.specs.Lines.{NoRequest, seen_line};
ghost use Rattle.aatry_log_lines.specs.Selections.{seen_selection};
ghost use Rattle.aatry_logs.specs.Entries.{entry_in_log, passes_over, tells_something};

use aa_set_commands::LONGEST_LINE;
use aatry_log_lines::{LogEntry, LogLine, Selection, entry_by};
use std::alloc::{AllocError, Global};

/// What a line of a log holds, by the selection. It can't be read where it has more than 65,536 bytes.
///
/// # Errors
///
/// Where memory runs out.
pub fn entry_in_log<'a>(
    alloc: Global,
    selection: Selection<'_>,
    line: &'a [u8],
) -> Result<LogEntry<'a>, AllocError>
    ensures { IfOk result (λ entry. seen_entry entry ≡ entry_in_log (seen_selection selection.entry) line.now) }
{
    if line.len() > LONGEST_LINE {
        return Ok(LogEntry::unreadable());
    }
    entry_by(alloc, selection, line)
}

// Whether a line holds something on AppArmor's requests.
fn tells_something(told: &LogLine<'_>) -> bool
    ensures { result ≡ tells_something (seen_line told.now) }
{
    match told {
        LogLine::NoRequest => false,
        LogLine::Asks(_) | LogLine::OtherRequest | LogLine::Disconnected => true,
        LogLine::Learning | LogLine::Unreadable | LogLine::Interpreted => true,
    }
}

/// Whether a line is passed over that holds something on AppArmor's requests. It takes no memory.
pub fn passes_over(entry: &LogEntry<'_>) -> bool
    ensures { result ≡ passes_over (seen_entry entry.now) }
{
    entry.is_passed_over && tells_something(&entry.told)
}

/// What a line holds that isn't passed over; of a line that is, no request. It takes no memory.
pub fn asked_for<'a>(told: LogLine<'a>, is_passed_over: bool) -> LogLine<'a>
    ensures { seen_line result ≡ (if is_passed_over then NoRequest else seen_line told.entry) }
{
    if is_passed_over {
        LogLine::NoRequest
    } else {
        told
    }
}
