//! Readers and writers of few bytes a call, which may fail.

ghost use Rattle.std.specs.Prelude.{◌≡◌, false};

use aa_set::{Failed, Sink};
use std::io::{self, ErrorKind, Read, Write};

/// The error of a reader or a writer that fails.
fn broken() -> io::Error {
    io::Error::from(ErrorKind::Unsupported)
}

/// A reader that gives the line `undo` again and again, a byte a read, so many bytes in all, and then ends or fails.
#[derive(Drop)]
pub struct Undoing {
    pub at: usize,
    pub count: usize,
    pub fails: bool,
}

impl Read for Undoing {
    fn read(&mut self, buffer: &mut [u8]) -> io::Result<usize> {
        if self.at >= self.count {
            return if self.fails { Err(broken()) } else { Ok(0) };
        }
        match buffer {
            [first, ..] => {
                *first = b"undo\n"[self.at % 5];
                self.at += 1;
                Ok(1)
            }
            [] => Ok(0),
        }
    }
}

/// A writer that has room for eight bytes, takes one a write, and then fails, or takes nothing.
#[derive(Drop)]
pub struct Small {
    pub taken: [u8; 8],
    pub count: usize,
    pub fails: bool,
}

impl Small {
    /// A writer to which nothing was written.
    pub fn new(fails: bool) -> Small {
        Small {
            taken: [b'.'; 8],
            count: 0,
            fails,
        }
    }
}

impl Write for Small {
    fn write(&mut self, bytes: &[u8]) -> io::Result<usize> {
        match bytes {
            [first, ..] if self.count < 8 => {
                self.taken[self.count] = *first;
                self.count += 1;
                Ok(1)
            }
            _ => { if self.fails { Err(broken()) } else { Ok(0) } }
        }
    }

    fn flush(&mut self) -> io::Result<()> {
        Ok(())
    }
}

/// A sink that takes one byte a call, as many as it has room for.
#[derive(Drop)]
pub struct Slow {
    pub taken: [u8; 8],
    pub count: usize,
    failed: bool,
}

impl Slow {
    /// A sink to which nothing was written.
    pub fn new() -> Slow
        ensures { ⟦<Slow as Sink>⟧.failed result ≡ false }
    {
        Slow {
            taken: [b'.'; 8],
            count: 0,
            failed: false,
        }
    }
}

impl Sink for Slow {
    ghost use Rattle.std.specs.Prelude.{None};

    ghost written = { λ _. None };

    ghost failed = { λ s. s.failed };

    fn write(&mut self, bytes: &[u8]) -> Result<usize, Failed> {
        if bytes.is_empty() {
            return Ok(0);
        }
        if self.count < self.taken.len() {
            self.taken[self.count] = bytes[0];
            self.count += 1;
            return Ok(1);
        }
        self.failed = true;
        Err(Failed)
    }

    fn failed(&self) -> bool {
        self.failed
    }
}
