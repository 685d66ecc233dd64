//! The run of a row, over any streams.

ghost use Rattle.std.specs.Prelude.{◌≡◌, ◌^◌, ◌≤◌, false};

use crate::wanted::Wanted;
use aa_set::{Language, RunFault, Sink, Source, Summary, run, run_in};
use aa_text::Files;
use std::alloc::Global;

/// How a run over these files ends, by the language and in the mode that are wanted.
pub fn outcome_of<S: Source, W: Sink>(
    alloc: Global,
    files: &Files,
    wanted: Wanted<'_>,
    reader: &mut S,
    writer: &mut W,
) -> Result<Summary, RunFault>
    requires whole_reader { S.failed reader.old ≡ false }
    requires whole_writer { W.failed writer.old ≡ false }
    requires reads { S.reads reader.old ≤ 2 ^ 63 }
{
    match wanted.language {
        Language::Three => run(alloc, files, wanted.force_complain, reader, writer),
        language => run_in(
            alloc,
            language,
            files,
            wanted.force_complain,
            reader,
            writer,
        ),
    }
}
