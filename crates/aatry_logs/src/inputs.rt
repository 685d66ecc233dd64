//! An input, gathered as a log, line by line.

ghost use Rattle.std.specs.Prelude.{◌≡◌, ◌≤◌, ◌⊎◌, ◌^◌, [], true, false, IfErr, OnOk, option_map};
ghost use Rattle.aatry_folder.specs.declared.fault.Fault.TheVariants as fault;
ghost use Rattle.aatry_log_lines.specs.Selections.{seen_selection};
ghost use Rattle.aatry_logs.specs.Compressed.{IsNamedCompressed, IsOfCompressed, is_compressed};
ghost use Rattle.aatry_logs.specs.Inputs.{IsAllTaken, IsGatheredFrom};
ghost use Rattle.aatry_logs.specs.LogRequests.{seen_logs, with_line};

use crate::compressed::{compressed, is_compressed};
use crate::lines::{Lines, MOST_LINES, all_lines, next_line};
use crate::log_requests::LogRequests;
use aa_set_commands::Source;
use aatry_folder::Fault;
use aatry_log_lines::Selection;
use std::alloc::Global;

impl<'a> LogRequests<'a> {
    // Takes the next line of a log, unless it is the first of one that gzip wrote.
    fn take_next(
        &mut self,
        alloc: Global,
        selection: Selection<'_>,
        file: Option<&str>,
        line: &[u8],
        is_first: bool,
    ) -> Result<(), Fault>
        ensures added { OnOk result (seen_logs self.new
            ≡ with_line (seen_selection selection.entry) (option_map (λ path. path.now) file.entry) (seen_logs self.old) line.now) }
        ensures plain { OnOk result (is_first ≡ true → is_compressed line.now ≡ false) }
        ensures fault { IfErr result (λ told. (told ≡ fault.NoMemory)
            ⊎ (IsNamedCompressed (option_map (λ path. path.now) file.entry) told × (is_first ≡ true) × (is_compressed line.now ≡ true))) }
    {
        if is_first && is_compressed(line) {
            return Err(compressed(alloc, file)?);
        }
        self.take_line(alloc, selection, file, line)?;
        Ok(())
    }

    // Takes the lines of an input of which nothing was read, as those of a log that has begun.
    fn take_lines<S: Source>(
        &mut self,
        alloc: Global,
        selection: Selection<'_>,
        file: Option<&str>,
        reader: &mut S,
        lines: &mut Lines,
    ) -> Result<(), Fault>
        requires countable { S.reads reader.old ≤ 2 ^ 62 }
        requires nothing_waits { lines.old.input ≡ [] }
        ensures whole { OnOk result (IsAllTaken (seen_selection selection.entry) (option_map (λ path. path.now) file.entry)
            (S.left reader.old) (seen_logs self.old) (seen_logs self.new)) }
        ensures fault { IfErr result (λ told. (told ≡ fault.Read) ⊎ (told ≡ fault.NoMemory)
            ⊎ IsOfCompressed (option_map (λ path. path.now) file.entry) (S.left reader.old) told) }
    {
        for count in 0..MOST_LINES {
            if !next_line(reader, lines)? {
                return Ok(());
            }
            self.take_next(alloc, selection, file, lines.line.as_slice(), count == 0)?;
        }
        Err(Fault::Read)
    }

    /// Takes all lines that an input still has, as those of the log at a path or of standard input, after those that were taken before. Each line is
    /// dropped once it is taken: memory is kept for each question once, and for the first lines that can't be read.
    ///
    /// # Errors
    ///
    /// - `Read` where a read failed, a line took more than 2,147,483,648 reads, or 1,073,741,824 lines didn't reach the end.
    /// - `Compressed` where the log's first line begins like a file of gzip. No line is taken then.
    /// - `NoMemory` where memory ran out.
    ///
    /// Some lines may have been taken then.
    pub fn take_input<S: Source>(
        &mut self,
        alloc: Global,
        selection: Selection<'_>,
        file: Option<&str>,
        reader: &mut S,
    ) -> Result<(), Fault>
        requires { S.reads reader.old ≤ 2 ^ 62 }
        ensures whole { OnOk result (IsGatheredFrom (seen_selection selection.entry) (option_map (λ path. path.now) file.entry)
            (S.left reader.old) (seen_logs self.old) (seen_logs self.new)) }
        ensures fault { IfErr result (λ told. (told ≡ fault.Read) ⊎ (told ≡ fault.NoMemory)
            ⊎ IsOfCompressed (option_map (λ path. path.now) file.entry) (S.left reader.old) told) }
    {
        self.begin();
        let mut lines = all_lines(alloc)?;
        self.take_lines(alloc, selection, file, reader, &mut lines)
    }
}
