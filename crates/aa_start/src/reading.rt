//! Reading the bytes of a file, whole.
ghost use Rattle.std.specs.Prelude.{◌≡◌, ◌+◌, ◌<◌, ◌≤◌, [], IsFalse, IsTrue, IfErr, IfOk, IfSome, OnOk, IsOkAnd, length, string_bytes, vec_len};
ghost use Rattle.std.specs.Io.KnownBytes.{IsAtEnd};
ghost use Rattle.std.specs.IoError.{error_kind};
ghost use Rattle.aa_text_files.specs.Files.{is_folder_name};
ghost use Rattle.aa_text_files.specs.Limit.{most_bytes};
ghost use Rattle.aa_start.specs.Gathering.{IsReadBelow, IsTooLongBelow, IsUnreadBelow};
ghost use Rattle.aa_start.specs.Reading.{ReadsBehind, is_whole_path, path_of, read_fault_of};
ghost use Rattle.aa_start.specs.declared.reading.ReadFault.TheVariants as read;

use crate::file_system::FileSystem;
use aa_text_files::{Files, MOST_BYTES};
use std::alloc::{AllocError, Global};
use std::io::{self, ErrorKind};

/// Why the bytes of a file couldn't be read.
#[derive(Clone, Copy, Debug, PartialEq, Eq)]
pub enum ReadFault {
    /// The file can't be opened or read.
    Unreadable,
    /// The file is longer than 16,777,216 bytes.
    TooLong,
    /// Memory ran out.
    Memory,
}

impl From<AllocError> for ReadFault {
    ghost from_gives = { λ _ fault. fault ≡ read.Memory };

    fn from(_error: AllocError) -> ReadFault {
        ReadFault::Memory
    }
}

impl From<io::Error> for ReadFault {
    ghost from_gives = { λ error fault. fault ≡ read_fault_of (error_kind error) };

    fn from(error: io::Error) -> ReadFault {
        match error.kind() {
            ErrorKind::OutOfMemory => ReadFault::Memory,
            _ => ReadFault::Unreadable,
        }
    }
}

// How many bytes a read asks for: most files of policy have no more. A buffer of this size is cleared for each file.
const PIECE: usize = 8_192;

// Reads a piece and appends it to the bytes, and returns whether the reader is at its end.
fn is_read_to_end<D: FileSystem>(
    disk: &D,
    path: &str,
    file: &mut D::File,
    piece: &mut [u8],
    bytes: &mut Vec<u8>,
) -> Result<bool, ReadFault>
    requires room { 0 < length piece.old }
    requires within { vec_len bytes.old ≤ most_bytes }
    ensures within { OnOk result (vec_len bytes.new ≤ most_bytes) }
    ensures read { OnOk result (ReadsBehind (D.File.remaining file.old) bytes.old.items (D.File.remaining file.new) bytes.new.items) }
    ensures grows { IfOk result (λ at_end. IsFalse at_end → vec_len bytes.old < vec_len bytes.new) }
    ensures end { IfOk result (λ at_end. IsTrue at_end → IsAtEnd (D.File.remaining file.new)) }
    ensures unreadable { IfErr result (λ fault. fault ≡ read.Unreadable → (D.known disk.now).IsUnreadable path.now) }
    ensures too_long { IfErr result (λ fault. fault ≡ read.TooLong
        → IfSome (D.File.remaining file.old) (λ left. most_bytes < vec_len bytes.old + length left)) }
{
    let count = disk.read_piece(path, file, piece)?;
    if count > MOST_BYTES - bytes.len() {
        return Err(ReadFault::TooLong);
    }
    bytes.extend_from_slice(&piece[..count])?;
    Ok(count == 0)
}

// A buffer for a piece.
fn piece_room(alloc: Global) -> Result<Vec<u8>, AllocError>
    ensures { IfOk result (λ piece. 0 < vec_len piece) }
{
    vec![in alloc; 0; PIECE]
}

// All bytes that a reader has left, where they are at most `MOST_BYTES`.
fn read_whole<D: FileSystem>(
    alloc: Global,
    disk: &D,
    path: &str,
    file: &mut D::File,
) -> Result<Vec<u8>, ReadFault>
    ensures within { IfOk result (λ bytes. vec_len bytes ≤ most_bytes) }
    ensures whole { IfOk result (λ bytes. IfSome (D.File.remaining file.old) (λ left. bytes.items ≡ left)) }
    ensures unreadable { IfErr result (λ fault. fault ≡ read.Unreadable → (D.known disk.now).IsUnreadable path.now) }
    ensures too_long { IfErr result (λ fault. fault ≡ read.TooLong → IfSome (D.File.remaining file.old) (λ left. most_bytes < length left)) }
{
    let mut piece = piece_room(alloc)?;
    let mut bytes = Vec::new(alloc);
    // Each read that isn't at the end returns a byte, so no more reads are needed, even where a reader returns a byte at a time.
    for _count in 0..MOST_BYTES + 1 {
        if is_read_to_end(disk, path, file, piece.as_mut_slice(), &mut bytes)? {
            return Ok(bytes);
        }
    }
    Err(ReadFault::TooLong)
}

// Whether a name is an absolute path: it begins with `/`.
fn is_whole_path(name: &str) -> bool
    ensures { result ≡ is_whole_path name.now }
{
    match name.as_bytes() {
        [first, ..] => *first == b'/',
        [] => false,
    }
}

// The path of a name: itself where it begins with `/`, and else a path below the base.
fn path_of(alloc: Global, base: &str, name: &str) -> Result<String, AllocError>
    ensures { IfOk result (λ path. string_bytes path ≡ path_of base.now name.now) }
{
    if is_whole_path(name) {
        return String::from_str(alloc, name);
    }
    let mut path = String::from_str(alloc, base)?;
    path.push_str("/")?;
    path.push_str(name)?;
    Ok(path)
}

/// The bytes of the file that a name stands for: at this path where it begins with `/`, and else at a path below the base. Where the name declares a
/// folder there are none, and nothing is read.
///
/// # Errors
///
/// - `Unreadable` where the file can't be opened or read, as the file system says.
/// - `TooLong` where it is longer than 16,777,216 bytes.
/// - `Memory` where memory ran out.
pub fn bytes_of<D: FileSystem>(
    disk: &D,
    alloc: Global,
    base: &str,
    name: &str,
) -> Result<Vec<u8>, ReadFault>
    ensures folder { IsTrue (is_folder_name name.now) → IsOkAnd result (λ bytes. bytes.items ≡ []) }
    ensures within { IfOk result (λ bytes. vec_len bytes ≤ most_bytes) }
    ensures read { IfOk result (λ bytes. IsReadBelow (D.known disk.now) base.now (name.now, bytes.items)) }
    ensures unreadable { IfErr result (λ fault. fault ≡ read.Unreadable → IsUnreadBelow (D.known disk.now) base.now name.now) }
    ensures too_long { IfErr result (λ fault. fault ≡ read.TooLong → IsTooLongBelow (D.known disk.now) base.now name.now) }
{
    if Files::is_folder(name.as_bytes()) {
        return Ok(Vec::new(alloc));
    }
    let path = path_of(alloc, base, name)?;
    let mut file = disk.open(path.as_str())?;
    read_whole(alloc, disk, path.as_str(), &mut file)
}
