//! Readers and writers that take so many bytes a call, and may fail.

ghost use Rattle.std.specs.Prelude.{◌≡◌, false};

use aa_set::{Failed, Sink, Source, comes_to_end};

/// How many bytes the first call of a stream moves and how many each other, and which of its calls fails: none where that is 0.
#[derive(Clone, Copy, Drop)]
pub struct Calls {
    pub first: usize,
    pub size: usize,
    pub failing: u64,
}

// How many bytes the call of this number moves.
fn size_of_call(calls: Calls, number: u64) -> usize {
    if number == 1 { calls.first } else { calls.size }
}

/// A source that gives so many bytes a read, and fails at one of its reads.
#[derive(Drop)]
pub struct Pieces<'a> {
    rest: &'a [u8],
    calls: Calls,
    reads: u64,
    failed: bool,
    ended: bool,
}

impl<'a> Pieces<'a> {
    /// A source of these bytes that has not been read.
    pub fn new(rest: &'a [u8], calls: Calls) -> Self
        ensures reads { ⟦<Pieces<'a> as Source>⟧.reads result ≡ 0 }
        ensures failed { ⟦<Pieces<'a> as Source>⟧.failed result ≡ false }
    {
        Pieces {
            rest,
            calls,
            reads: 0,
            failed: false,
            ended: false,
        }
    }
}

impl Source for Pieces<'_> {
    ghost use Rattle.std.specs.Prelude.{None};

    ghost left = { λ _. None };

    ghost reads = { λ s. s.reads };

    ghost failed = { λ s. s.failed };

    ghost ended = { λ s. s.ended };

    fn read(&mut self, buffer: &mut [u8]) -> Result<usize, Failed> {
        self.reads += 1;
        if self.reads == self.calls.failing {
            self.failed = true;
            return Err(Failed);
        }
        let most = size_of_call(self.calls, self.reads);
        let count = most.min(self.rest.len()).min(buffer.len());
        let (piece, rest) = self.rest.split_at(count);
        buffer[..count].copy_from_slice(piece);
        self.rest = rest;
        self.ended = self.ended || comes_to_end(count, buffer.len());
        Ok(count)
    }

    fn reads(&self) -> u64 {
        self.reads
    }

    fn failed(&self) -> bool {
        self.failed
    }

    fn ended(&self) -> bool {
        self.ended
    }
}

/// A sink that takes so many bytes a write, and fails at one of its writes.
#[derive(Drop)]
pub struct Takes {
    written: Vec<u8>,
    calls: Calls,
    writes: u64,
    failed: bool,
}

impl Takes {
    /// A sink with these bytes that has not been written to.
    pub fn new(written: Vec<u8>, calls: Calls) -> Self
        ensures failed { ⟦<Takes as Sink>⟧.failed result ≡ false }
    {
        Takes {
            written,
            calls,
            writes: 0,
            failed: false,
        }
    }

    /// What was written.
    pub fn written(&self) -> &[u8] {
        self.written.as_slice()
    }
}

impl Sink for Takes {
    ghost use Rattle.std.specs.Prelude.{None};

    ghost written = { λ _. None };

    ghost failed = { λ s. s.failed };

    fn write(&mut self, bytes: &[u8]) -> Result<usize, Failed> {
        self.writes = self.writes.saturating_add(1);
        let most = size_of_call(self.calls, self.writes);
        let count = most.max(1).min(bytes.len());
        if self.writes == self.calls.failing
            || self.written.extend_from_slice(&bytes[..count]).is_err()
        {
            self.failed = true;
            return Err(Failed);
        }
        Ok(count)
    }

    fn failed(&self) -> bool {
        self.failed
    }
}
