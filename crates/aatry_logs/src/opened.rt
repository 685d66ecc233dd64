//! The file at a path, as an input.

ghost use Rattle.std.specs.Prelude.{◌≡◌, Some, IfErr, IfOk, IfSome, string_bytes};
ghost use Rattle.std.specs.IoError.{error_kind};
ghost use Rattle.aatry_logs.specs.Opened.{IsUnopened, fault_by};

use aa_start::FileSystem;
use aatry_folder::Fault;
use std::io::ErrorKind;

// The fault where the file at a path can't be opened, by the kind of the system's error.
fn fault_by(path: String, kind: ErrorKind) -> Fault
    ensures { result ≡ fault_by path kind }
{
    match kind {
        ErrorKind::OutOfMemory => Fault::NoMemory,
        _ => Fault::Unreadable(path),
    }
}

/// The file at a path, opened to be read from its beginning. A relative path starts in the current folder.
///
/// # Errors
///
/// - `Unreadable` with the path, where no file can be opened there.
/// - `NoMemory` where the system has no memory for it.
pub fn open_at<D: FileSystem>(disk: &D, path: String) -> Result<D::File, Fault>
    ensures opened { IfOk result (λ file. IfSome ((D.known disk.now).bytes_at (string_bytes path)) (λ bytes. D.File.remaining file ≡ Some bytes)) }
    ensures fault { IfErr result (IsUnopened (D.known disk.now) (string_bytes path)) }
{
    match disk.open(path.as_str()) {
        Ok(file) => Ok(file),
        Err(error) => Err(fault_by(path, error.kind())),
    }
}
