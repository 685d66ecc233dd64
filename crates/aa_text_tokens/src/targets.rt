//! Which files an Include names.

ghost use Rattle.std.specs.Prelude.{◌≡◌, ◌++◌, ◌∷◌, [], IfOk};
ghost use Rattle.aa_bytes.specs.Bytes.{slash};
ghost use Rattle.aa_text_tokens.specs.Splicing.{looked_up, target, without};
ghost use Rattle.aa_text_tokens.specs.code.SplicingProgress.{folder_target, target_of};

use aa_text_files::{Files, members};
use std::alloc::{AllocError, Global};

// The name that an Include looks up: as it is written, without one `/` at its end.
fn looked_up(name: &[u8]) -> &[u8]
    ensures { result.now ≡ looked_up name.now }
{
    if Files::is_folder(name) {
        &name[..name.len() - 1]
    } else {
        name
    }
}

// The name that declares a folder.
fn folder_name(alloc: Global, name: &[u8]) -> Result<Vec<u8>, AllocError>
    ensures { IfOk result (λ folder. folder.items ≡ name.now ++ slash ∷ []) }
{
    let mut folder = Vec::from_slice(alloc, name)?;
    folder.push(b'/')?;
    Ok(folder)
}

// The files of an Include where nothing has its name.
fn without(alloc: Global, if_exists: bool) -> Option<Vec<usize>>
    ensures { target_of result ≡ without if_exists }
{
    if if_exists {
        Some(Vec::new(alloc))
    } else {
        None
    }
}

// The files of an Include where no file has its name: the members of a folder.
fn folder_target(
    alloc: Global,
    files: &Files,
    name: &[u8],
    if_exists: bool,
) -> Result<Option<Vec<usize>>, AllocError>
    ensures { IfOk result (λ found. target_of found ≡ folder_target files.now name.now if_exists) }
{
    let folder = folder_name(alloc, name)?;
    if files.has(&folder) {
        let found = members(alloc, files, &folder)?;
        Ok(Some(found))
    } else {
        Ok(without(alloc, if_exists))
    }
}

/// The indices of the files that an Include names, in order, or `None` where its name is a fault.
///
/// # Errors
///
/// Where memory runs out.
pub fn target(
    alloc: Global,
    files: &Files,
    name: &[u8],
    if_exists: bool,
) -> Result<Option<Vec<usize>>, AllocError>
    ensures { IfOk result (λ found. target_of found ≡ target files.now name.now if_exists) }
{
    if name.is_empty() {
        return Ok(without(alloc, if_exists));
    }
    match files.position(looked_up(name)) {
        Some(file) => {
            let mut found = Vec::new(alloc);
            found.push(file)?;
            Ok(Some(found))
        }
        None => {
            let found = folder_target(alloc, files, looked_up(name), if_exists)?;
            Ok(found)
        }
    }
}
