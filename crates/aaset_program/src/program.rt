//! What the program does, from the words of its start to its exit status.
ghost use Rattle.std.specs.Prelude.{◌≡◌, ◌^◌, ◌≤◌, false, Result};
ghost use Rattle.aaset_program.specs.declared.stop.Stop.{Stop};
ghost use Rattle.aaset_program.specs.declared.ready.Ready.{Ready};
ghost use Rattle.aaset_program.specs.Prepared.{ArePrepared};
ghost use Rattle.aaset_program.specs.Program.{IsPerformed, IsRun};
ghost use Rattle.aaset_program.specs.Streams.{read_from, written_to};

use crate::fault::Fault;
use crate::outcome::status;
use crate::ready::{Ready, prepare};
use crate::reporting::{report, show};
use crate::stop::Stop;
use aa_set::{Sink, Source};
use aa_start::FileSystem;
use std::alloc::Global;

// Answers the commands of standard input, each before the next is read.
fn answer<S: Source, W: Sink, E: Sink>(
    alloc: Global,
    ready: &Ready,
    input: &mut S,
    output: &mut W,
    errors: &mut E,
) -> u8
    requires whole_input { S.failed input.old ≡ false }
    requires whole_output { W.failed output.old ≡ false }
    requires reads { S.reads input.old ≤ 2 ^ 63 }
    ensures { IsRun ready.now
        (read_from (S.left input.old) (S.left input.new) (S.reads input.old) (S.reads input.new)
        (S.ended input.old) (S.ended input.new) (S.failed input.new))
        (written_to (W.written output.old) (W.written output.new) (W.failed output.new))
        (written_to (E.written errors.old) (E.written errors.new) (E.failed errors.new)) result }
{
    let outcome = aa_set::run_in(
        alloc,
        ready.language,
        &ready.files,
        ready.force_complain,
        input,
        output,
    );
    match &outcome {
        Ok(_) => status(&outcome),
        Err(fault) => report(errors, &Fault::from(*fault)),
    }
}

// Does what was prepared: answers commands, writes a text, or reports a fault.
fn perform<S: Source, W: Sink, E: Sink>(
    alloc: Global,
    prepared: Result<Ready, Stop>,
    input: &mut S,
    output: &mut W,
    errors: &mut E,
) -> u8
    requires whole_input { S.failed input.old ≡ false }
    requires whole_output { W.failed output.old ≡ false }
    requires reads { S.reads input.old ≤ 2 ^ 63 }
    ensures { IsPerformed prepared
        (read_from (S.left input.old) (S.left input.new) (S.reads input.old) (S.reads input.new)
        (S.ended input.old) (S.ended input.new) (S.failed input.new))
        (written_to (W.written output.old) (W.written output.new) (W.failed output.new))
        (written_to (E.written errors.old) (E.written errors.new) (E.failed errors.new)) result }
{
    match prepared {
        Ok(ready) => answer(alloc, &ready, input, output, errors),
        Err(Stop::Shown(text)) => show(text.as_str(), output, errors),
        Err(Stop::Failed(fault)) => report(errors, &fault),
    }
}

/// Does what the words of the program's start ask for, and returns the exit status. The first word is the program's own name; where the words can't
/// be had, `words` is the fault to be reported.
///
/// A text that is asked for, help or the version, is written to `output`. For a run the files are read from `disk`, and then the commands of `input`
/// are answered on `output`, each before the next is read. The status is 0 where the text was written or no command was refused, and 1 where some
/// command was. A fault is reported on `errors`, on a line of its own, without allocating, and its status is 2 where the arguments or a NAME are no
/// good, and 3 where a stream or memory failed; before the first command is read, nothing is written to `output` then. Where `errors` fails, only
/// the status reports the fault.
pub fn start<D: FileSystem, S: Source, W: Sink, E: Sink>(
    alloc: Global,
    words: Result<Vec<String>, Fault>,
    disk: &D,
    input: &mut S,
    output: &mut W,
    errors: &mut E,
) -> u8
    requires whole_input { S.failed input.old ≡ false }
    requires whole_output { W.failed output.old ≡ false }
    requires reads { S.reads input.old ≤ 2 ^ 63 }
    ensures { (prepared : Result Ready Stop) × ArePrepared (D.known disk.now) words prepared
        × IsPerformed prepared
        (read_from (S.left input.old) (S.left input.new) (S.reads input.old) (S.reads input.new)
        (S.ended input.old) (S.ended input.new) (S.failed input.new))
        (written_to (W.written output.old) (W.written output.new) (W.failed output.new))
        (written_to (E.written errors.old) (E.written errors.new) (E.failed errors.new)) result }
{
    let prepared = prepare(alloc, words, disk);
    perform(alloc, prepared, input, output, errors)
}
