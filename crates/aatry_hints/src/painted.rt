//! A writer that shows lines in colours.

use crate::lines::push_colored;
use std::alloc::{AllocError, Global};
use std::io;
use std::io::Write;

/// A writer that writes the whole lines of each piece in their colours, where that is wanted; else it passes everything to the writer that it is
/// made of.
#[derive(Drop)]
pub struct Painted<W> {
    writer: W,
    alloc: Global,
    is_colored: bool,
}

// A piece in colours.
fn piece_in_colors(alloc: Global, piece: &[u8]) -> Result<Vec<u8>, AllocError> {
    let mut shown = Vec::new(alloc);
    push_colored(piece, &mut shown)?;
    Ok(shown)
}

impl<W: Write> Painted<W> {
    /// A writer over another one, in colours or not.
    pub fn new(writer: W, alloc: Global, is_colored: bool) -> Painted<W> {
        Painted {
            writer,
            alloc,
            is_colored,
        }
    }
}

impl<W: Write> Write for Painted<W> {
    fn write(&mut self, buf: &[u8]) -> io::Result<usize> {
        if !self.is_colored {
            return self.writer.write(buf);
        }
        match piece_in_colors(self.alloc, buf) {
            Ok(shown) => {
                self.writer.write_all(&shown)?;
                Ok(buf.len())
            }
            // A piece for which there is no memory is written as it is.
            Err(_) => self.writer.write(buf),
        }
    }

    fn flush(&mut self) -> io::Result<()> {
        self.writer.flush()
    }
}
