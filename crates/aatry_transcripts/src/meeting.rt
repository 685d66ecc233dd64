//! Which output lines of a run meet those that a transcript wants.

ghost use Rattle.std.specs.Prelude.{◌≡◌, ◌<◌, ◌≤◌, None, Some, drop, false, length, true};
ghost use Rattle.aatry_transcripts.specs.Meeting.{are_met, behind_audit_line, behind_met, leaves_out, stands_for};
ghost use Rattle.aatry_transcripts.specs.Transcripts.{texts};

use crate::lines::{line_at, lines_behind};
use crate::replies::is_audit_line;
use aa_bytes::{begins_with, behind};

/// The end of a wanted line whose audit line is left out.
pub const LEFT_OUT: &[u8] = b" ..";

/// Whether a wanted line leaves its audit line out.
pub fn leaves_out(wanted: &[u8]) -> bool
    ensures { result ≡ leaves_out wanted.now }
{
    wanted.ends_with(LEFT_OUT)
}

// Whether a wanted line stands for this one, and for the audit line after it.
fn stands_for(wanted: &[u8], line: &[u8]) -> bool
    ensures { result ≡ stands_for wanted.now line.now }
{
    begins_with(line, wanted) && behind(line.len(), wanted) == LEFT_OUT
}

// Whether an audit line comes first.
fn is_audited(told: &[&[u8]]) -> bool
    ensures first { result ≡ true → behind_audit_line (texts told.now) ≡ Some (drop 1 (texts told.now)) }
    ensures other { result ≡ false → behind_audit_line (texts told.now) ≡ None }
    ensures some { result ≡ true → 0 < length told.now }
{
    match told {
        [line, ..] => is_audit_line(line),
        [] => false,
    }
}

// How many output lines, from the first on, a wanted line asks for: 0 where it asks for others.
fn met_size(wanted: &[u8], told: &[&[u8]]) -> usize
    ensures met { 0 < result → behind_met wanted.now (texts told.now) ≡ Some (drop result (texts told.now)) }
    ensures unmet { result ≡ 0 → behind_met wanted.now (texts told.now) ≡ None }
    ensures within { result ≤ length told.now }
{
    match told {
        [line, behind @ ..] => {
            if wanted == *line {
                1
            } else if stands_for(wanted, line) && is_audited(behind) {
                2
            } else {
                0
            }
        }
        [] => 0,
    }
}

/// Whether output lines are those that wanted lines ask for, each of them in turn, and no others. A wanted line asks for itself, byte for byte; one
/// that ends in ` ..` also for the line without that end followed by an audit line, whatever that is.
pub fn are_met(wanted: &[&[u8]], told: &[&[u8]]) -> bool
    ensures { result ≡ are_met (texts wanted.now) (texts told.now) }
{
    let mut left = told;
    for at in 0..wanted.len() {
        let size = met_size(line_at(at, wanted), left);
        if size == 0 {
            return false;
        }
        left = lines_behind(size, left);
    }
    left.is_empty()
}
