//! The direct members of a folder, in the order of their names.

ghost use Rattle.std.specs.Prelude.{◌≡◌, IfOk, OnOk};
ghost use Rattle.std.specs.List.Sorted.{IsSortedBy, IsStableBy};
ghost use Rattle.aa_text_files.specs.Folder.{comes_before, is_member, members};
ghost use Rattle.aa_text_files.specs.code.Gathered.{with_member};

use crate::files::Files;
use aa_bytes::{begins_with, behind, has_byte};
use std::alloc::{AllocError, AllocFailed, Global};

// Whether a name is a direct member of a folder.
fn is_member(folder: &[u8], name: &[u8]) -> bool
    ensures { result ≡ is_member folder.now name.now }
{
    let rest = behind(folder.len(), name);
    begins_with(folder, name) && !rest.is_empty() && !has_byte(b'/', rest)
}

// Appends a file to the members of a folder, if it is one.
fn push_member(
    files: &Files,
    folder: &[u8],
    found: &mut Vec<usize>,
    file: usize,
) -> Result<(), AllocFailed<usize>>
    ensures { OnOk result (found.new.items ≡ with_member files.now folder.now file found.old.items) }
{
    if is_member(folder, files.name_at(file)) {
        found.push(file)?;
    }
    Ok(())
}

// Sorts files by their names; files of one name keep their order.
fn sort_by_name(files: &Files, found: &mut Vec<usize>) -> Result<(), AllocError>
    ensures sorted { OnOk result (IsSortedBy (comes_before files.now) found.new.items) }
    ensures stable { OnOk result (IsStableBy (comes_before files.now) found.old.items found.new.items) }
{
    found.sort_by(|one, two| files.name_at(*one).cmp(&files.name_at(*two)))?;
    Ok(())
}

/// The indices of the direct members of a folder, sorted by their names.
///
/// # Errors
///
/// Where memory runs out.
pub fn members(alloc: Global, files: &Files, folder: &[u8]) -> Result<Vec<usize>, AllocError>
    ensures { IfOk result (λ found. found.items ≡ members files.now folder.now) }
{
    let mut found = Vec::new(alloc);
    let mut at = files.len();
    while at > 0 {
        at -= 1;
        push_member(files, folder, &mut found, at)?;
    }
    sort_by_name(files, &mut found)?;
    Ok(found)
}
