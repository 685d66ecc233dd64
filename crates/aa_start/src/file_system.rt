//! Where files are read from.
ghost use Rattle.std.specs.Prelude.{◌≡◌, IfErr, IfOk, IfSome, Some};
ghost use Rattle.std.specs.Io.{ReadsAtMost};
ghost use Rattle.std.specs.Io.KnownBytes.{ReadConsumes};
ghost use Rattle.std.specs.IoError.{error_kind};
ghost use Rattle.aa_start.specs.Known.{Known, SaysUnreadable, nothing_known};

use std::io::{ErrorKind, Read};
use std::{fs, io, rt};

/// A file system, as far as files are read from it.
pub trait FileSystem {
    /// A file that was opened.
    type File: Read + Drop;

    // What is known of its files: the bytes at a path, and at which paths no file can be opened or read.
    ghost known: { Self → Known };

    /// Opens the file at a path, to be read from its beginning.
    ///
    /// # Errors
    ///
    /// The error of the system. Its kind is `OutOfMemory` only where memory ran out.
    fn open(&self, path: &str) -> io::Result<Self::File>
        ensures ok { IfOk result (λ file. IfSome ((known self.now).bytes_at path.now) (λ bytes. Self.File.remaining file ≡ Some bytes)) }
        ensures err { IfErr result (λ error. SaysUnreadable (known self.now) path.now (error_kind error)) };

    /// Reads a piece of a file that was opened at a path, as `Read::read` does, and returns how many bytes that are.
    ///
    /// # Errors
    ///
    /// The error of the system. Its kind is `OutOfMemory` only where memory ran out.
    fn read_piece(&self, path: &str, file: &mut Self::File, piece: &mut [u8]) -> io::Result<usize>
        ensures bound { ReadsAtMost result piece.new }
        ensures bytes { ReadConsumes (Self.File.remaining file.old) (Self.File.remaining file.new) result piece.new }
        ensures err { IfErr result (λ error. SaysUnreadable (known self.now) path.now (error_kind error)) };
}

/// The file system of a runtime, of which files alone are opened: no folder, no device, and no named pipe, whose opening would wait for
/// a writer. Nothing is known of its files' bytes before they are read, and any file may turn out not to be readable.
#[derive(Drop)]
pub struct RuntimeFiles<R> {
    rt: R,
}

impl<R: rt::Files> RuntimeFiles<R> {
    /// The files that `rt` opens.
    pub fn new(rt: R) -> RuntimeFiles<R> {
        RuntimeFiles { rt }
    }
}

impl<R: rt::Files> FileSystem for RuntimeFiles<R> {
    type File = R::File;

    ghost known = { λ _. nothing_known };

    fn open(&self, path: &str) -> io::Result<R::File> {
        if fs::metadata(&self.rt, path)?.is_file() {
            fs::open(&self.rt, path)
        } else {
            Err(io::Error::from(ErrorKind::Unsupported))
        }
    }

    fn read_piece(&self, _path: &str, file: &mut R::File, piece: &mut [u8]) -> io::Result<usize> {
        file.read(piece)
    }
}
