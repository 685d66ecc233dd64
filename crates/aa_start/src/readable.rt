//! The named files, read in their order, where some of them can't be read.

ghost use Rattle.std.specs.Prelude.{◌≡◌, ◌++◌, ◌∷◌, ◌≤◌, [], ℕ, List, Option, false, IsTrue, IfErr, IfOk, OnOk, map, string_bytes, vec_len};
ghost use Rattle.std.specs.List.{All};
ghost use Rattle.std.specs.Str.{bytes_eq};
ghost use Rattle.aa_text_files.specs.Files.{is_bad_file};
ghost use Rattle.aa_text_files.specs.Limit.{most_bytes};
ghost use Rattle.aa_start.specs.Gathering.{IsTakable, names_of};
ghost use Rattle.aa_start.specs.Names.{AreGoodNames, is_refused_behind};
ghost use Rattle.aa_start.specs.Readable.{AreTakenSo, IsFirstRefusal, IsRefusalBehind, IsTakenSo, stand_in, unread_in, words_of};

use crate::file_system::FileSystem;
use crate::gathering::{GatherFault, is_refused};
use crate::reading::{ReadFault, bytes_of};
use aa_text_files::{Files, Place};
use std::alloc::{AllocError, Global};

/// Why a file wasn't read.
#[derive(Clone, Copy)]
pub enum UnreadFault {
    /// The file can't be opened or read, by the file system.
    Unreadable,
    /// The file is longer than 16,777,216 bytes.
    TooLong,
}

impl UnreadFault {
    /// The fault in words.
    pub fn words(self) -> &'static str
        ensures { result.now ≡ words_of self }
    {
        match self {
            UnreadFault::Unreadable => "the file can't be read",
            UnreadFault::TooLong => "the file is longer than 16,777,216 bytes",
        }
    }
}

/// Files that were named, some of which may not have been read.
#[derive(Drop)]
pub struct ReadableFiles {
    /// All of them, by their names. One that wasn't read has a placeholder text instead, an include of no name, so that it is refused where it is
    /// read as policy, and so is each file that includes it.
    pub files: Files,
    /// For each of them, in their order, why it wasn't read; `None` where it was.
    pub unread: Vec<Option<UnreadFault>>,
}

/// The index of the file of a place, and why it wasn't read; `None` where it was, or where there is no place. It takes no memory.
pub fn unread_in(
    unread: &[Option<UnreadFault>],
    place: Option<Place>,
) -> Option<(usize, UnreadFault)>
    ensures { result ≡ unread_in unread.now place }
{
    let place = place?;
    match unread.get(place.file) {
        Some(Some(fault)) => Some((place.file, *fault)),
        _ => None,
    }
}

// The placeholder text of a file that wasn't read.
const STAND_IN: &str = "include <> # not read";

/// Whether a text is the placeholder of a file that wasn't read. A file may have that text too: it is refused all the same.
pub fn is_stand_in(text: &[u8]) -> bool
    ensures { result ≡ bytes_eq text.now stand_in }
{
    text == STAND_IN.as_bytes()
}

// The placeholder as bytes.
fn stand_in(alloc: Global) -> Result<Vec<u8>, AllocError>
    ensures text { IfOk result (λ bytes. bytes.items ≡ stand_in) }
    ensures within { IfOk result (λ bytes. vec_len bytes ≤ most_bytes) }
{
    let mut bytes = Vec::new(alloc);
    bytes.extend_from_slice(STAND_IN.as_bytes())?;
    Ok(bytes)
}

// The bytes of the file that a name stands for; or the placeholder, and why the file wasn't read.
fn bytes_or_stand_in<D: FileSystem>(
    disk: &D,
    alloc: Global,
    base: &str,
    name: &str,
) -> Result<(Vec<u8>, Option<UnreadFault>), AllocError>
    ensures taken { IfOk result (λ found. IsTakenSo (D.known disk.now) base.now (name.now, found.0.items) found.1) }
    ensures within { IfOk result (λ found. vec_len found.0 ≤ most_bytes) }
{
    match bytes_of(disk, alloc, base, name) {
        Ok(bytes) => Ok((bytes, None)),
        Err(ReadFault::Unreadable) => Ok((stand_in(alloc)?, Some(UnreadFault::Unreadable))),
        Err(ReadFault::TooLong) => Ok((stand_in(alloc)?, Some(UnreadFault::TooLong))),
        Err(ReadFault::Memory) => Err(AllocError),
    }
}

// Adds a file after the others, with why it wasn't read, if it wasn't.
fn put(
    alloc: Global,
    files: &mut Files,
    unread: &mut Vec<Option<UnreadFault>>,
    name: &str,
    bytes: Vec<u8>,
    fault: Option<UnreadFault>,
) -> Result<(), AllocError>
    ensures files { OnOk result (files.new ≡ files.old ++ (name.now, bytes.items) ∷ []) }
    ensures good { OnOk result (is_bad_file name.now bytes.items ≡ false) }
    ensures unread { OnOk result (unread.new.items ≡ unread.old.items ++ fault ∷ []) }
{
    let name = String::from_str(alloc, name)?;
    match files.insert(name.into_bytes(), bytes) {
        Ok(()) => {
            unread.push(fault)?;
            Ok(())
        }
        Err(_) => Err(AllocError),
    }
}

// The fault for a name that is refused, or `Memory` where the name can't be copied.
fn untaken(alloc: Global, before: &Files, name: &str) -> GatherFault
    requires { IsTrue (is_refused_behind (names_of before.now) name.now) }
    ensures { IsRefusalBehind (names_of before.now) name.now result }
{
    match String::from_str(alloc, name) {
        Ok(name) => GatherFault::Untaken(name),
        Err(_) => GatherFault::Memory,
    }
}

// Adds the file that a name stands for, or its placeholder, after those that were added before.
fn take<D: FileSystem>(
    disk: &D,
    alloc: Global,
    base: &str,
    name: &str,
    files: &mut Files,
    unread: &mut Vec<Option<UnreadFault>>,
) -> Result<(), GatherFault>
    ensures ok { OnOk result ((bytes : List ℕ) × (fault : Option UnreadFault) × (files.new ≡ files.old ++ (name.now, bytes) ∷ [])
        × (unread.new.items ≡ unread.old.items ++ fault ∷ []) × IsTakable (name.now, bytes)
        × IsTakenSo (D.known disk.now) base.now (name.now, bytes) fault) }
    ensures fits { OnOk result (is_refused_behind (names_of files.old) name.now ≡ false) }
    ensures err { IfErr result (IsRefusalBehind (names_of files.old) name.now) }
{
    if is_refused(files, name.as_bytes()) {
        return Err(untaken(alloc, files, name));
    }
    let (bytes, fault) = bytes_or_stand_in(disk, alloc, base, name)?;
    put(alloc, files, unread, name, bytes, fault)?;
    Ok(())
}

/// Reads the named files from a file system, in this order and under these names, as `gather` does; but a file that can't be opened or read, or is
/// longer than 16,777,216 bytes, is no error: the result says what is wrong with it, and has a placeholder for it, an include of no name.
///
/// # Errors
///
/// What was read before is dropped.
/// - `Untaken`, with the first name that is empty, holds a byte below the space or comes twice.
/// - `Memory` where memory ran out.
pub fn gather_readable<D: FileSystem>(
    disk: &D,
    alloc: Global,
    base: &str,
    names: &[String],
) -> Result<ReadableFiles, GatherFault>
    ensures names { IfOk result (λ read. names_of read.files ≡ map string_bytes names.now) }
    ensures good { OnOk result (AreGoodNames (map string_bytes names.now)) }
    ensures takable { IfOk result (λ read. All IsTakable read.files) }
    ensures read { IfOk result (λ read. AreTakenSo (D.known disk.now) base.now read.files read.unread.items) }
    ensures err { IfErr result (IsFirstRefusal (map string_bytes names.now)) }
{
    let mut files = Files::new(alloc);
    let mut unread = Vec::new(alloc);
    for name in names {
        take(disk, alloc, base, name.as_str(), &mut files, &mut unread)?;
    }
    Ok(ReadableFiles { files, unread })
}
