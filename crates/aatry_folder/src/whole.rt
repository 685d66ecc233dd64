//! The whole paths by which files of a folder of policy include other files in it.

ghost use Rattle.std.specs.Prelude.{◌≡◌, IfOk, List, Option, map, ℕ, string_bytes};
ghost use Rattle.std.specs.Option.{option_map};
ghost use Rattle.aatry_folder.specs.Whole.{IsFront};
ghost use Rattle.aatry_folder.specs.WholeNames.{front_at, whole_names};

use crate::folders::Folders;
use crate::paths::{front_at, whole_names};
use aa_bytes::begins_with_byte;
use aa_text_files::Files;
use std::alloc::{AllocError, Global};

// The beginning of the path of each file below the folder of a path, if one was found.
fn found_front(alloc: Global, found: Option<String>) -> Result<Option<String>, AllocError>
    ensures { IfOk result (λ front. option_map string_bytes front ≡ option_map front_at (option_map string_bytes found)) }
{
    match found {
        None => Ok(None),
        Some(path) => Ok(Some(front_at(alloc, path.as_str())?)),
    }
}

// The beginning of the whole path of each file below a folder, if the folder has one.
fn front_of<F: Folders>(
    folders: &F,
    alloc: Global,
    base: &str,
) -> Result<Option<String>, AllocError>
    ensures { IfOk result (λ front. IsFront (F.told folders.now) base.now (option_map string_bytes front)) }
{
    if begins_with_byte(b'/', base.as_bytes()) {
        return Ok(Some(front_at(alloc, base)?));
    }
    let found = folders.whole_path(alloc, base)?;
    found_front(alloc, found)
}

/// The whole paths of those names below a folder of policy that includes of its files look up by them (`aatry_folder::whole_names`): by the path of
/// the folder, where that is whole, and else by the one that it leads to.
///
/// # Errors
///
/// Where memory runs out.
pub fn names_asked_whole<F: Folders>(
    folders: &F,
    alloc: Global,
    base: &str,
    names: &[String],
    files: &Files,
) -> Result<Vec<String>, AllocError>
    ensures { IfOk result (λ whole. (front : Option (List ℕ)) × IsFront (F.told folders.now) base.now front
        × (map string_bytes whole.items ≡ whole_names front (map string_bytes names.now) files.now)) }
{
    let front = front_of(folders, alloc, base)?;
    whole_names(alloc, &front, names, files)
}
