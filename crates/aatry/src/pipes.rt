//! A pipe whose reader is gone, as `head` goes when it has enough: the program ends without a word then.

use std::cell::Cell;
use std::io;
use std::io::{ErrorKind, Write};

/// A writer that remembers whether its reader is gone, as the system says by `BrokenPipe`.
#[derive(Drop)]
pub struct Piped<'c, W> {
    writer: W,
    is_closed: &'c Cell<bool>,
}

impl<'c, W> Piped<'c, W> {
    /// The same writer, which sets `is_closed` where its reader is gone.
    pub fn new(writer: W, is_closed: &'c Cell<bool>) -> Piped<'c, W> {
        Piped { writer, is_closed }
    }

    // Remembers what an error says of the reader.
    fn note(&self, error: &io::Error) {
        if error.kind() == ErrorKind::BrokenPipe {
            self.is_closed.set(true);
        }
    }
}

impl<W: Write> Write for Piped<'_, W> {
    ghost contents = { λ piped. W.contents piped.writer };

    fn write(&mut self, buf: &[u8]) -> io::Result<usize> {
        let written = self.writer.write(buf);
        if let Err(error) = &written {
            self.note(error);
        }
        written
    }

    fn flush(&mut self) -> io::Result<()> {
        self.writer.flush()
    }
}

/// A writer for words that nobody needs once the reader of another one is gone: from then on it takes all and writes nothing.
#[derive(Drop)]
pub struct Muted<'c, W> {
    writer: W,
    is_closed: &'c Cell<bool>,
}

impl<'c, W> Muted<'c, W> {
    /// The same writer, until `is_closed` is set.
    pub fn new(writer: W, is_closed: &'c Cell<bool>) -> Muted<'c, W> {
        Muted { writer, is_closed }
    }
}

impl<W: Write> Write for Muted<'_, W> {
    fn write(&mut self, buf: &[u8]) -> io::Result<usize> {
        if self.is_closed.get() {
            return Ok(buf.len());
        }
        self.writer.write(buf)
    }

    fn flush(&mut self) -> io::Result<()> {
        self.writer.flush()
    }
}
