//! Where files are replaced.
ghost use Rattle.std.specs.Prelude.{◌≡◌, ◌++◌, ◌∷◌, [], IfOk, List, None, OnErr, OnOk, Option, codes, string_bytes};
ghost use Rattle.std.specs.IoError.{error_kind};
ghost use Rattle.aa_text_files.specs.Files.{File};
ghost use Rattle.aatry_test.specs.Stores.{Replaces, fault_of_store};

use aatry_folder::Fault;
use std::alloc::{AllocError, Global};
use std::fs::{OpenFile, Permissions};
use std::io::{ErrorKind, Write};
use std::{fs, io, rt};

/// A file system, as far as files are replaced in it.
pub trait FileStore {
    // The files that were replaced, each by its path with its new bytes, in their order, where they are known.
    ghost replaced: { Self → Option (List File) };

    /// Puts these bytes in place of those of the file at a path, all of them at once.
    ///
    /// # Errors
    ///
    /// That of the system. Its kind is `OutOfMemory` for want of memory alone. The file is then as it was.
    fn replace(&mut self, alloc: Global, path: &str, bytes: &[u8]) -> io::Result<()>
        ensures ok { OnOk result (Replaces (replaced self.old) (replaced self.new) ((path.now, bytes.now) ∷ [])) }
        ensures err { OnErr result (Replaces (replaced self.old) (replaced self.new) []) };
}

/// The file system of a runtime. A file is replaced by a new one, which is written whole beside it, under its name followed by `.new`, and then
/// renamed; a file that a link leads to is replaced, and the link stays. The new file has the permissions of the old one, and belongs to whoever
/// runs the program. Where a file of that name exists already nothing is replaced, and where anything else fails, the new file is removed, if
/// possible. Nothing is known of what was replaced.
#[derive(Drop)]
pub struct RuntimeStore<R> {
    rt: R,
}

impl<R: rt::Files> RuntimeStore<R> {
    /// The files that `rt` writes.
    pub fn new(rt: R) -> RuntimeStore<R> {
        RuntimeStore { rt }
    }
}

// The path of the new file beside that of a path.
fn path_beside(alloc: Global, path: &str) -> Result<String, AllocError>
    ensures { IfOk result (λ beside. string_bytes beside ≡ path.now ++ codes ".new") }
{
    let mut beside = String::from_str(alloc, path)?;
    beside.push_str(".new")?;
    Ok(beside)
}

// Writes a new file whole, with these permissions.
fn fill<F: Write + OpenFile>(
    file: &mut F,
    bytes: &[u8],
    permissions: Permissions,
) -> io::Result<()> {
    file.write_all(bytes)?;
    file.set_permissions(permissions)?;
    file.sync_all()
}

// Writes a new file, and gives it the name of the one that it replaces.
fn fill_and_rename<R: rt::Files>(
    rt: &R,
    mut file: R::File,
    bytes: &[u8],
    beside: &str,
    path: &str,
) -> io::Result<()> {
    let permissions = fs::metadata(rt, path)?.permissions();
    fill(&mut file, bytes, permissions)?;
    fs::rename(rt, beside, path)
}

// Replaces the file at a path that is no link, by way of a new one beside it.
fn replace_by<R: rt::Files>(rt: &R, bytes: &[u8], beside: &str, path: &str) -> io::Result<()> {
    let file = fs::File::create_new(rt, beside)?;
    let replaced = fill_and_rename(rt, file, bytes, beside, path);
    if replaced.is_err() {
        let _ = fs::remove_file(rt, beside);
    }
    replaced
}

impl<R: rt::Files> FileStore for RuntimeStore<R> {
    ghost replaced = { λ _. None };

    fn replace(&mut self, alloc: Global, path: &str, bytes: &[u8]) -> io::Result<()> {
        let path = self.rt.canonicalize(alloc, path)?;
        let beside = path_beside(alloc, path.as_str())?;
        replace_by(&self.rt, bytes, beside.as_str(), path.as_str())
    }
}

/// The program's fault for an error of replacing a file.
pub fn fault_of_store(error: &io::Error) -> Fault
    ensures { result ≡ fault_of_store (error_kind error.now) }
{
    match error.kind() {
        ErrorKind::OutOfMemory => Fault::NoMemory,
        _ => Fault::Write,
    }
}
