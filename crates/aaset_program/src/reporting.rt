//! What is reported apart from replies: faults, and texts that were asked for.
ghost use Rattle.std.specs.Prelude.{◌≡◌, OnOk, OnErr, true, string_bytes};
ghost use Rattle.std.specs.Io.KnownBytes.{Appends};
ghost use Rattle.aaset_program.specs.Fault.{joined};
ghost use Rattle.aaset_program.specs.Streams.{written_to};
ghost use Rattle.aaset_program.specs.Program.{IsReported, IsShown, line_of};

use crate::fault::{Fault, FaultText, fault_status, fault_text};
use aa_set::{Failed, Sink};
use aa_set_commands::write_all;

// Writes a fault's text on a line of its own.
fn write_line<E: Sink>(errors: &mut E, text: FaultText<'_>) -> Result<(), Failed>
    ensures ok { OnOk result (Appends (E.written errors.old) (E.written errors.new) (line_of (joined text.entry))) }
    ensures flag { OnOk result (E.failed errors.new ≡ E.failed errors.old) }
    ensures fault { OnErr result (E.failed errors.new ≡ true) }
{
    write_all(errors, text.words.as_bytes())?;
    write_all(errors, text.name.as_bytes())?;
    write_all(errors, b"\n")
}

// Reports a fault on standard error, and returns its exit status, which alone reports it where that can't be written.
pub fn report<E: Sink>(errors: &mut E, fault: &Fault) -> u8
    ensures { IsReported fault.now (written_to (E.written errors.old) (E.written errors.new) (E.failed errors.new)) result }
{
    let _ = write_line(errors, fault_text(fault));
    fault_status(fault)
}

// Writes a text that was asked for, and returns the exit status.
pub fn show<W: Sink, E: Sink>(text: &str, output: &mut W, errors: &mut E) -> u8
    ensures { IsShown text.now (written_to (W.written output.old) (W.written output.new) (W.failed output.new))
        (written_to (E.written errors.old) (E.written errors.new) (E.failed errors.new)) result }
{
    match write_all(output, text.as_bytes()) {
        Ok(()) => 0,
        Err(_) => report(errors, &Fault::Write),
    }
}
