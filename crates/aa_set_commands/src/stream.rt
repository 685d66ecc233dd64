//! Streams of bytes: a reader and a writer that count calls and remember their faults.
ghost use Rattle.std.specs.Prelude.{Option, ◌≡◌, ℕ, ◌+◌, ◌-◌, ◌^◌, ◌<◌, ◌||◌, List, Bool, true, false, length, IfOk, OnOk, OnErr};
ghost use Rattle.std.specs.Io.{ReadsAtMost, WritesAtMost};
ghost use Rattle.std.specs.Io.KnownBytes.{ReadConsumes, WriteAppends};
ghost use Rattle.aa_set_commands.specs.Streams.{comes_to_end};

use std::io::{Read, Write};
use thiserror::Error;

/// A stream's fault: a read returned no bytes, or a write took none, though the stream was not at its end.
///
/// It says no more, since callers always do the same about it: they neither read nor write any further.
#[derive(Clone, Copy, Debug, PartialEq, Eq, Error)]
#[error("a stream failed")]
pub struct Failed;

/// A reader of bytes, piece by piece.
///
/// A source counts the reads that were asked of it, and remembers whether one of them failed, and whether one came to the end.
pub trait Source {
    // The bytes that reads will return from here on, where they are known.
    ghost left: { Self → Option (List ℕ) };

    // How many reads there were.
    ghost reads: { Self → ℕ };

    // Whether a read failed.
    ghost failed: { Self → Bool };

    // Whether a read came to the end: it returned no bytes for a buffer that has room.
    ghost ended: { Self → Bool };

    /// Reads a piece: writes the next bytes to the front of `buffer`, and returns how many they are, at most the buffer's length. What follows them
    /// in `buffer` means nothing. A count of 0 for a buffer that is not empty comes only at the end.
    ///
    /// Each call, also one that fails, adds one to `reads()`, which may not have reached `u64::MAX` before.
    ///
    /// # Errors
    ///
    /// `Failed` where the stream has a fault. No byte is then lost: those that were left are left still. `failed()` is true from then on, and
    /// `ended()` is as it was.
    fn read(&mut self, buffer: &mut [u8]) -> Result<usize, Failed>
        requires countable { reads self.old < 2 ^ 64 - 1 }
        ensures within { ReadsAtMost result buffer.new }
        ensures bytes { ReadConsumes (left self.old) (left self.new) result buffer.new }
        ensures counted { reads self.new ≡ reads self.old + 1 }
        ensures end { IfOk result (λ count. ended self.new ≡ (ended self.old || comes_to_end count (length buffer.old))) }
        ensures going { OnErr result (ended self.new ≡ ended self.old) }
        ensures ok { OnOk result (failed self.new ≡ failed self.old) }
        ensures err { OnErr result (failed self.new ≡ true) };

    /// How many calls of `read` there were, including those that failed.
    fn reads(&self) -> u64
        ensures { result ≡ reads self.now };

    /// Whether a call of `read` has failed.
    fn failed(&self) -> bool
        ensures { result ≡ failed self.now };

    /// Whether a call of `read` has reached the end.
    fn ended(&self) -> bool
        ensures { result ≡ ended self.now };
}

/// A writer of bytes.
///
/// A sink remembers whether a write to it failed.
pub trait Sink {
    // The bytes that were written, where they are known.
    ghost written: { Self → Option (List ℕ) };

    // Whether a write failed.
    ghost failed: { Self → Bool };

    /// Writes the first of `bytes`, and returns how many it took: at most all of them, and at least one of a slice that is not empty. The caller
    /// writes the rest by further calls.
    ///
    /// # Errors
    ///
    /// `Failed` where the stream has a fault. It then took no byte, and `failed()` is true from then on.
    fn write(&mut self, bytes: &[u8]) -> Result<usize, Failed>
        ensures within { WritesAtMost result bytes.now }
        ensures moves { IfOk result (λ n. 0 < length bytes.now → 0 < n) }
        ensures bytes { WriteAppends (written self.old) (written self.new) result bytes.now }
        ensures ok { OnOk result (failed self.new ≡ failed self.old) }
        ensures err { OnErr result (failed self.new ≡ true) };

    /// Whether a call of `write` has failed.
    fn failed(&self) -> bool
        ensures { result ≡ failed self.now };
}

/// Whether a read of so many bytes into a buffer of this length reaches the end: it returns none, although there is room. It takes no memory.
pub fn comes_to_end(count: usize, size: usize) -> bool
    ensures { result ≡ comes_to_end count size }
{
    count == 0 && size > 0
}

/// A reader of the standard library as a source.
///
/// Each error of the reader is a fault, also one that only says that a signal interrupted it: nothing is tried twice.
#[derive(Drop)]
pub struct FromRead<R> {
    reader: R,
    reads: u64,
    failed: bool,
    ended: bool,
}

impl<R: Read> FromRead<R> {
    /// A source of the bytes that `reader` has left, with no read so far, no fault and no end.
    pub fn new(reader: R) -> FromRead<R>
        ensures left { ⟦<FromRead<R> as Source>⟧.left result ≡ R.remaining reader }
        ensures reads { ⟦<FromRead<R> as Source>⟧.reads result ≡ 0 }
        ensures failed { ⟦<FromRead<R> as Source>⟧.failed result ≡ false }
        ensures ended { ⟦<FromRead<R> as Source>⟧.ended result ≡ false }
    {
        FromRead {
            reader,
            reads: 0,
            failed: false,
            ended: false,
        }
    }

    /// The reader, which has the bytes left that the source had.
    pub fn into_inner(self) -> R
        ensures { R.remaining result ≡ ⟦<FromRead<R> as Source>⟧.left self }
    {
        self.reader
    }
}

impl<R: Read> Source for FromRead<R> {
    ghost left = { λ s. R.remaining s.reader };

    ghost reads = { λ s. s.reads };

    ghost failed = { λ s. s.failed };

    ghost ended = { λ s. s.ended };

    fn read(&mut self, buffer: &mut [u8]) -> Result<usize, Failed> {
        self.reads += 1;
        match self.reader.read(buffer) {
            Ok(count) => {
                self.ended = self.ended || comes_to_end(count, buffer.len());
                Ok(count)
            }
            Err(_) => {
                self.failed = true;
                Err(Failed)
            }
        }
    }

    fn reads(&self) -> u64 {
        self.reads
    }

    fn failed(&self) -> bool {
        self.failed
    }

    fn ended(&self) -> bool {
        self.ended
    }
}

/// A writer of the standard library as a sink.
///
/// Each error of the writer is a fault, also one that only says that a signal interrupted it: nothing is tried twice. A write that takes none of the
/// bytes it is given is a fault too.
#[derive(Drop)]
pub struct ToWrite<W> {
    writer: W,
    failed: bool,
}

impl<W: Write> ToWrite<W> {
    /// A sink that appends to what `writer` holds, with no fault so far.
    pub fn new(writer: W) -> ToWrite<W>
        ensures written { ⟦<ToWrite<W> as Sink>⟧.written result ≡ W.contents writer }
        ensures failed { ⟦<ToWrite<W> as Sink>⟧.failed result ≡ false }
    {
        ToWrite {
            writer,
            failed: false,
        }
    }

    /// The writer, with all that was written to it. It isn't flushed.
    pub fn into_inner(self) -> W
        ensures { W.contents result ≡ ⟦<ToWrite<W> as Sink>⟧.written self }
    {
        self.writer
    }
}

impl<W: Write> Sink for ToWrite<W> {
    ghost written = { λ s. W.contents s.writer };

    ghost failed = { λ s. s.failed };

    fn write(&mut self, bytes: &[u8]) -> Result<usize, Failed> {
        match self.writer.write(bytes) {
            Ok(count) if count > 0 || bytes.is_empty() => Ok(count),
            _ => {
                self.failed = true;
                Err(Failed)
            }
        }
    }

    fn failed(&self) -> bool {
        self.failed
    }
}
