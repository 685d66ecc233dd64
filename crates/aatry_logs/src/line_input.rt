//! An input, line by line.

ghost use Rattle.std.specs.Prelude.{◌≡◌, ◌⊎◌, ◌+◌, ◌-◌, ◌^◌, ◌<◌, ◌≤◌, ◌++◌, ◌∷◌, [], ℕ, List, true, false, IfOk, OnErr, OnOk, drop, length};
ghost use Rattle.std.specs.Io.KnownBytes.{Consumes, IsAtEnd, Keeps};
ghost use Rattle.std.specs.List.{list_any};
ghost use Rattle.aa_bytes.specs.Bytes.{line_feed};
ghost use Rattle.aa_set_commands.specs.Lines.{is_line_feed};
ghost use Rattle.aatry_logs.specs.OpenedInputs.{BreaksOff, GivesLine, kept, most_reads};

use aa_set_commands::{Failed, LineBuffer, Source, first_line};
use std::alloc::{AllocError, Global};
use std::marker::Model;

// How many bytes a read asks for.
const PIECE: usize = 65_536;

// How many reads a line takes at most.
const MOST_READS: u32 = 2_147_483_648;

/// What was read of an input and not returned yet.
///
/// Contracts see these bytes.
#[derive(Drop)]
pub struct LineInput {
    piece: Vec<u8>,
    from: usize,
    to: usize,
}

impl Model for LineInput {
    ghost use Rattle.std.specs.Prelude.{List, ℕ, ◌<◌, ◌≤◌, drop, length, take};

    ghost Value = { List ℕ };

    ghost view = { λ input. drop input.from (take input.to input.piece.items) };

    ghost invariant = { λ input. (input.from ≤ input.to) × (input.to ≤ length input.piece.items)
        × (0 < length input.piece.items) };
}

impl LineInput {
    /// An input of which nothing was read, with the buffer for a read.
    ///
    /// # Errors
    ///
    /// Where memory runs out.
    pub fn new(alloc: Global) -> Result<LineInput, AllocError>
        ensures { IfOk result (λ input. input ≡ []) }
    {
        Ok(LineInput {
            piece: vec![in alloc; 0; PIECE]?,
            from: 0,
            to: 0,
        })
    }

    /// Reads on to the end of the next line, puts that line in place of what `line` holds, and returns whether there is one: at the input's end
    /// there is none. The line has no line feed. Of a line that is too long one byte more is kept than a line may have.
    ///
    /// # Errors
    ///
    /// `Failed` where a read fails, or the line didn't end within 2,147,483,648 reads. `line` then holds the beginning of the line, as far as it was
    /// read, which no further call returns again; what was read after it waits.
    pub fn next<S: Source>(&mut self, reader: &mut S, line: &mut LineBuffer) -> Result<bool, Failed>
        requires { S.reads reader.old ≤ 2 ^ 63 }
        ensures given { IfOk result (GivesLine (S.left reader.old) (S.left reader.new) self.old self.new line.new) }
        ensures bound { S.reads reader.new ≤ S.reads reader.old + most_reads }
        ensures whole { OnOk result (S.failed reader.new ≡ S.failed reader.old) }
        ensures fault { OnErr result ((S.failed reader.new ≡ true) ⊎ (S.reads reader.new ≡ S.reads reader.old + most_reads)) }
        ensures broken { OnErr result (BreaksOff (S.left reader.old) (S.left reader.new) self.old self.new line.new) }
    {
        line.clear();
        for _count in 0..MOST_READS {
            if self.take_line(line) {
                return Ok(true);
            }
            if self.fill(reader)? == 0 {
                return Ok(!line.is_empty());
            }
        }
        Err(Failed)
    }

    // What was read and not returned yet.
    fn waiting(&self) -> &[u8]
        ensures { result.now ≡ self.now }
    {
        &self.piece[self.from..self.to]
    }

    // Drops the first `count` bytes.
    fn pass(&mut self, count: usize)
        requires { count ≤ length self.old }
        ensures { self.new ≡ drop count self.old }
    {
        self.from += count;
    }

    // Takes what waits up to the first line feed, or all that waits, appends it to the line, and returns whether there was a line feed.
    fn take_line(&mut self, line: &mut LineBuffer) -> bool
        ensures ended { result ≡ true → (last : List ℕ) × (list_any is_line_feed last ≡ false)
            × (self.old ≡ last ++ line_feed ∷ self.new) × (line.new ≡ kept (line.old ++ last)) }
        ensures all { result ≡ false → (list_any is_line_feed self.old ≡ false) × (self.new ≡ []) × (line.new ≡ kept (line.old ++ self.old)) }
    {
        let waiting = self.waiting();
        let Some((last, _)) = first_line(waiting) else {
            let count = waiting.len();
            line.keep(waiting);
            self.pass(count);
            return false;
        };
        let count = last.len() + 1;
        line.keep(last);
        self.pass(count);
        true
    }

    // Reads the next piece, where nothing waits, and returns how many bytes that is.
    fn fill<S: Source>(&mut self, reader: &mut S) -> Result<usize, Failed>
        requires nothing_waits { self.old ≡ [] }
        requires countable { S.reads reader.old < 2 ^ 64 - 1 }
        ensures bytes { OnOk result (Consumes (S.left reader.old) (S.left reader.new) self.new) }
        ensures size { IfOk result (λ count. count ≡ length self.new) }
        ensures end { IfOk result (λ count. count ≡ 0 → IsAtEnd (S.left reader.new)) }
        ensures counted { S.reads reader.new ≡ S.reads reader.old + 1 }
        ensures ok { OnOk result (S.failed reader.new ≡ S.failed reader.old) }
        ensures kept { OnErr result (Keeps (S.left reader.old) (S.left reader.new)) }
        ensures fault { OnErr result (S.failed reader.new ≡ true) }
        ensures nothing { OnErr result (self.new ≡ []) }
    {
        self.from = 0;
        self.to = 0;
        let count = reader.read(&mut self.piece)?;
        self.to = count;
        Ok(count)
    }
}
