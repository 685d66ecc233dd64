//! The lines of an input, one after the other.

ghost use Rattle.std.specs.Prelude.{◌≡◌, ◌≤◌, ◌+◌, ◌^◌, [], IfErr, IfOk};
ghost use Rattle.aatry_folder.specs.declared.fault.Fault.TheVariants as fault;
ghost use Rattle.aatry_logs.specs.OpenedInputs.{GivesLine, most_reads};

use crate::line_input::LineInput;
use aa_set_commands::{LineBuffer, Source};
use aatry_folder::Fault;
use std::alloc::{AllocError, Global};

/// How many lines of an input are returned at most.
pub const MOST_LINES: u32 = 1_073_741_824;

/// The lines of an input: what was read of it and not returned yet, and the line that was returned last.
#[derive(Drop)]
pub struct Lines {
    /// What was read and not returned yet.
    pub input: LineInput,
    /// The line that was returned last, as far as it matters.
    pub line: LineBuffer,
}

/// The lines of an input of which nothing was read.
///
/// # Errors
///
/// Where memory runs out.
pub fn all_lines(alloc: Global) -> Result<Lines, AllocError>
    ensures { IfOk result (λ lines. lines.input ≡ []) }
{
    let input = LineInput::new(alloc)?;
    let line = LineBuffer::new(alloc)?;
    Ok(Lines { input, line })
}

/// Reads the next line into `lines.line`, and returns whether there is one (`LineInput::next`).
///
/// # Errors
///
/// `Read` where a read fails, or the line doesn't end.
pub fn next_line<S: Source>(reader: &mut S, lines: &mut Lines) -> Result<bool, Fault>
    requires { S.reads reader.old ≤ 2 ^ 63 }
    ensures given { IfOk result (GivesLine (S.left reader.old) (S.left reader.new) lines.old.input lines.new.input lines.new.line) }
    ensures fault { IfErr result (λ told. told ≡ fault.Read) }
    ensures bound { S.reads reader.new ≤ S.reads reader.old + most_reads }
{
    match lines.input.next(reader, &mut lines.line) {
        Ok(is_line) => Ok(is_line),
        Err(_) => Err(Fault::Read),
    }
}
