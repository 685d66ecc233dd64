//! A file at a path of its own, read from a disk.

ghost use Rattle.std.specs.Prelude.{◌≡◌, ◌∷◌, [], IfErr, IfOk, string_bytes};
ghost use Rattle.aa_start.specs.Gathering.{texts_of};
ghost use Rattle.aatry_folder.specs.OneFile.{IsFileAt};
ghost use Rattle.aatry_folder.specs.Unread.{IsOfFile};

use crate::fault::Fault;
use aa_start::{FileSystem, gather};
use aa_text_files::Files;
use std::alloc::{AllocError, Global};

// The folder from which a relative path starts.
const CURRENT: &str = ".";

// A path alone.
fn one_path(alloc: Global, path: String) -> Result<Vec<String>, AllocError>
    ensures { IfOk result (λ paths. texts_of paths ≡ string_bytes path ∷ []) }
{
    let mut paths = Vec::new(alloc);
    paths.push(path)?;
    Ok(paths)
}

/// The file of this path, as the only one of `Files`. A relative path starts in the current folder.
///
/// # Errors
///
/// - `Unreadable` with the path, where no file can be read there.
/// - `NoMemory` where memory ran out.
pub fn file_at<D: FileSystem>(alloc: Global, disk: &D, path: String) -> Result<Files, Fault>
    ensures found { IfOk result (λ found. IsFileAt (D.known disk.now) (string_bytes path) found) }
    ensures fault { IfErr result (IsOfFile (D.known disk.now) (string_bytes path)) }
{
    if Files::is_folder(path.as_bytes()) {
        return Err(Fault::Unreadable(path));
    }
    let paths = one_path(alloc, path)?;
    Ok(gather(disk, alloc, CURRENT, paths)?)
}
