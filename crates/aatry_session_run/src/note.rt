//! The note after the reply to a line that loads a file: that the disk has another one now.

ghost use Rattle.std.specs.Prelude.{◌≡◌, ◌++◌, ℕ, List, IfOk, MatchOption, OnOk, string_bytes};
ghost use Rattle.aatry_folder.specs.OneFile.{IsFileAt};
ghost use Rattle.aatry_folder.specs.Unread.{IsOfFile};
ghost use Rattle.aatry_folder.specs.declared.fault.Fault.{Fault};
ghost use Rattle.aatry_report.specs.FilePlaces.{path_below};
ghost use Rattle.aatry_session_run.specs.Notes.{IsNoted, IsNotedOf, IsUnreadAt, newer_line, noted};
ghost use Rattle.aatry_session_told.specs.Commands.{loaded_file};

use crate::state::Setting;
use aa_start::FileSystem;
use aa_text_files::Files;
use aatry_folder::{Folders, file_at};
use aatry_report::{path_below, push_shown};
use aatry_session_told::loaded_file;
use std::alloc::{AllocError, Global};
use std::str::from_utf8;

// Appends the line that says that the disk has a newer file.
fn push_newer(alloc: Global, base: &str, name: &[u8], out: &mut Vec<u8>) -> Result<(), AllocError>
    ensures { OnOk result (out.new.items ≡ out.old.items ++ newer_line base.now name.now) }
{
    let path = path_below(alloc, base.as_bytes(), name)?;
    out.extend_from_slice(b"note: ")?;
    push_shown(out, &path)?;
    out.extend_from_slice(b" is newer on disk: reload takes it\n")
}

// Appends that line, if the bytes that a session has of a file differ from those on disk.
fn push_noted(
    alloc: Global,
    base: &str,
    name: &[u8],
    bytes: &[u8],
    later: &[u8],
    out: &mut Vec<u8>,
) -> Result<(), AllocError>
    ensures { OnOk result (out.new.items ≡ out.old.items ++ noted base.now name.now bytes.now later.now) }
{
    if later == bytes {
        return Ok(());
    }
    push_newer(alloc, base, name, out)
}

// The file at a path, if one can be read there.
fn read_at<D: FileSystem>(alloc: Global, disk: &D, path: String) -> Option<Files>
    ensures { MatchOption result ((fault : Fault) × IsOfFile (D.known disk.now) (string_bytes path) fault)
        (λ found. IsFileAt (D.known disk.now) (string_bytes path) found) }
{
    match file_at(alloc, disk, path) {
        Ok(found) => Some(found),
        Err(_) => None,
    }
}

// The file of a name, read again, if one can be read at its path below the folder.
fn read_again<D: FileSystem>(
    alloc: Global,
    disk: &D,
    base: &str,
    name: &[u8],
) -> Result<Option<Files>, AllocError>
    ensures { IfOk result (λ found. MatchOption found (IsUnreadAt (D.known disk.now) (path_below base.now name.now))
        (λ found. IsFileAt (D.known disk.now) (path_below base.now name.now) found)) }
{
    let path = path_below(alloc, base.as_bytes(), name)?;
    match from_utf8(&path) {
        Ok(path) => Ok(read_at(alloc, disk, String::from_str(alloc, path)?)),
        Err(_) => Ok(None),
    }
}

// Reads a file that a session has again, and appends that the disk has a newer one, if its bytes differ.
fn push_if_newer<D: FileSystem>(
    alloc: Global,
    disk: &D,
    base: &str,
    name: &[u8],
    bytes: &[u8],
    out: &mut Vec<u8>,
) -> Result<(), AllocError>
    ensures { OnOk result ((text : List ℕ) × (out.new.items ≡ out.old.items ++ text)
        × IsNotedOf (D.known disk.now) base.now name.now bytes.now text) }
{
    let found = read_again(alloc, disk, base, name)?;
    match found {
        Some(found) => push_noted(alloc, base, name, bytes, found.bytes_at(0), out),
        None => Ok(()),
    }
}

/// Appends that the disk has a newer file to a text, where the command of a line is `add` or `replace` with a file that a session has: where a file
/// can be read at its path below the folder, and its bytes differ. It reads only that file, none that it includes, and nothing for other lines.
///
/// # Errors
///
/// Where memory runs out for the text, or for the path. A beginning may have been appended then.
pub fn push_note<F: Folders, D: FileSystem>(
    alloc: Global,
    setting: &Setting<'_, F, D>,
    files: &Files,
    line: &[u8],
    out: &mut Vec<u8>,
) -> Result<(), AllocError>
    ensures { OnOk result ((text : List ℕ) × (out.new.items ≡ out.old.items ++ text)
        × IsNoted (D.known setting.now.disk.now) setting.now.base.now files.now (loaded_file line.now) text) }
{
    let Some(name) = loaded_file(line) else {
        return Ok(());
    };
    match files.bytes(name) {
        Some(bytes) => push_if_newer(alloc, setting.disk, setting.base, name, bytes, out),
        None => Ok(()),
    }
}
