//! The named files, read in their order.
ghost use Rattle.std.specs.Prelude.{◌≡◌, ◌++◌, ◌∷◌, [], ℕ, List, false, IfOk, IfErr, OnOk, string_bytes};
ghost use Rattle.std.specs.List.{All};
ghost use Rattle.aa_text_files.specs.Files.{has_control_byte};
ghost use Rattle.aa_start.specs.Gathering.{names_of, texts_of, IsFaultBehind, IsFirstFault, IsReadBelow, IsTakable};
ghost use Rattle.aa_start.specs.Names.{AreGoodNames, is_bad_name, is_refused_behind};
ghost use Rattle.aa_start.specs.declared.gathering.GatherFault.TheVariants as fault;

use crate::file_system::FileSystem;
use crate::reading::{ReadFault, bytes_of};
use aa_text_files::Files;
use std::alloc::{AllocError, Global};
use thiserror::Error;

/// Why the named files couldn't be read.
#[derive(Debug, Drop, Error)]
pub enum GatherFault {
    /// The first name that is refused: its file can't be read or is too long, it comes twice, or it is no name for a file.
    #[error("cannot take {0}")]
    Untaken(String),
    /// Memory ran out.
    #[error("memory ran out")]
    Memory,
}

impl From<AllocError> for GatherFault {
    ghost from_gives = { λ _ told. told ≡ fault.Memory };

    fn from(_error: AllocError) -> GatherFault {
        GatherFault::Memory
    }
}

// Whether a name holds a byte below the space.
fn has_control(name: &[u8]) -> bool
    ensures { result ≡ has_control_byte name.now }
{
    name.iter().any(|b| *b < b' ')
}

// Whether a name is refused for a file and for a folder: it is empty, or holds a byte below the space.
fn is_bad_name(name: &[u8]) -> bool
    ensures { result ≡ is_bad_name name.now }
{
    name.is_empty() || has_control(name)
}

/// Whether a name can't be added to these files, whatever its file has. It takes no memory.
pub fn is_refused(files: &Files, name: &[u8]) -> bool
    ensures { result ≡ is_refused_behind (names_of files.now) name.now }
{
    is_bad_name(name) || files.has(name)
}

// Adds the file that a name stands for, after those that were added before.
fn take<D: FileSystem>(
    disk: &D,
    alloc: Global,
    base: &str,
    name: String,
    files: &mut Files,
) -> Result<(), GatherFault>
    ensures ok { OnOk result ((bytes : List ℕ) × (files.new ≡ files.old ++ (string_bytes name, bytes) ∷ [])
        × IsTakable (string_bytes name, bytes) × IsReadBelow (D.known disk.now) base.now (string_bytes name, bytes)) }
    ensures fits { OnOk result (is_refused_behind (names_of files.old) (string_bytes name) ≡ false) }
    ensures err { IfErr result (IsFaultBehind (D.known disk.now) base.now (names_of files.old) (string_bytes name)) }
{
    if is_refused(files, name.as_bytes()) {
        return Err(GatherFault::Untaken(name));
    }
    let bytes = match bytes_of(disk, alloc, base, name.as_str()) {
        Ok(bytes) => bytes,
        Err(ReadFault::Unreadable) => return Err(GatherFault::Untaken(name)),
        Err(ReadFault::TooLong) => return Err(GatherFault::Untaken(name)),
        Err(ReadFault::Memory) => return Err(GatherFault::Memory),
    };
    // Such a name is refused only where memory runs out.
    match files.insert(name.into_bytes(), bytes) {
        Ok(()) => Ok(()),
        Err(_) => Err(GatherFault::Memory),
    }
}

/// Reads the named files from a file system, in this order and under these names.
///
/// A name that ends in `/` declares a folder, which isn't read and has no bytes. Any other name is a path where it begins with `/`, and else a path
/// below the folder `base`, which has no `/` at its end. Its file is read whole, by pieces.
///
/// # Errors
///
/// The first in the order of the names. What was read before is dropped.
/// - `Untaken`, with the first name that is refused: it is empty, holds a byte below the space or comes twice, all of which is found and returned
///   without allocating, or its file can't be opened or read, as the file system says, or is longer than 16,777,216 bytes.
/// - `Memory` where memory ran out at a name with which nothing is wrong.
pub fn gather<D: FileSystem>(
    disk: &D,
    alloc: Global,
    base: &str,
    names: Vec<String>,
) -> Result<Files, GatherFault>
    ensures names { IfOk result (λ files. names_of files ≡ texts_of names) }
    ensures good { OnOk result (AreGoodNames (texts_of names)) }
    ensures takable { IfOk result (All IsTakable) }
    ensures read { IfOk result (All (IsReadBelow (D.known disk.now) base.now)) }
    ensures err { IfErr result (IsFirstFault (D.known disk.now) base.now (texts_of names)) }
{
    let mut files = Files::new(alloc);
    for name in names {
        take(disk, alloc, base, name, &mut files)?;
    }
    Ok(files)
}
