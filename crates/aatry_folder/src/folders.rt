//! From where the members of folders are read.
ghost use Rattle.std.specs.Prelude.{◌≡◌, ◌++◌, None, Ok, Err, IfErr, IfOk, IfSome, IsNone, codes, false, is_err, option_map, string_bytes, true};
ghost use Rattle.std.specs.Fs.{IsDir, IsFile};
ghost use Rattle.std.specs.IoError.{error_kind};
ghost use Rattle.aatry_folder.specs.Members.{texts_of};
ghost use Rattle.aatry_folder.specs.Links.{is_for_memory, leads_nowhere};
ghost use Rattle.aatry_folder.specs.Told.{SaysUnreadable, ToldFolders, anything_in_order};

use crate::below::is_for_memory;
use std::alloc::{AllocError, Global};
use std::fs::FileType;
use std::io::ErrorKind;
use std::{fs, io, rt};

/// A file system, as far as its folders are read.
pub trait Folders {
    // What it answers on its folders: their members, and which can't be read.
    ghost told: { Self → ToldFolders };

    /// The members of the folder at a path, each by its name, a folder's with `/` at its end. Links are followed. What is neither a file nor
    /// a folder is left out: a socket, a pipe, a device, and a link that leads nowhere.
    ///
    /// # Errors
    ///
    /// That of the system. Its kind is `OutOfMemory` for want of memory alone.
    fn members(&self, alloc: Global, path: &str) -> io::Result<Vec<String>>
        ensures ok { IfOk result (λ names. (told self.now).HasMembers path.now (texts_of names)) }
        ensures err { IfErr result (λ error. SaysUnreadable (told self.now) path.now (error_kind error)) };

    /// Whether something exists at a path: a file, a folder, or whatever else. Links are followed, so that a path whose link leads nowhere doesn't
    /// exist, nor does one to which the system doesn't lead for another reason.
    ///
    /// # Errors
    ///
    /// Where memory runs out.
    fn is_there(&self, path: &str) -> Result<bool, AllocError>
        ensures { IfOk result (λ there. (told self.now).IsThere path.now there) };

    /// The whole path, one that begins with `/`, of the folder at a relative path; `None` where the system doesn't lead to it.
    ///
    /// # Errors
    ///
    /// Where memory runs out.
    fn whole_path(&self, alloc: Global, path: &str) -> Result<Option<String>, AllocError>
        ensures { IfOk result (λ found. (told self.now).IsWhole path.now (option_map string_bytes found)) };
}

/// The folders of a runtime's file system. What the system answers on their members is trusted. The members are in the order of their names' bytes,
/// a folder's `/` included, whatever the order of the system is. A folder with a name in it that isn't text (UTF-8) can't be read: its kind of error
/// is `InvalidFilename`.
#[derive(Drop)]
pub struct RuntimeFolders<R> {
    rt: R,
}

impl<R: rt::Files> RuntimeFolders<R> {
    /// The folders that `rt` reads.
    pub fn new(rt: R) -> RuntimeFolders<R> {
        RuntimeFolders { rt }
    }
}

// Whether a link leads nowhere, by the error of following it. What was removed since its folder was read leads nowhere too.
fn leads_nowhere(kind: ErrorKind) -> bool
    ensures { result ≡ leads_nowhere kind }
{
    matches!(
        kind,
        ErrorKind::NotFound | ErrorKind::NotADirectory | ErrorKind::FilesystemLoop
    )
}

// What following a path found, if it leads anywhere. Only the errors of links that lead nowhere are ignored.
fn found(followed: io::Result<FileType>) -> io::Result<Option<FileType>>
    ensures kind { IfOk followed (λ kind. result ≡ Ok (Some kind)) }
    ensures nowhere { IfErr followed (λ error. leads_nowhere (error_kind error) ≡ true → result ≡ Ok None) }
    ensures failed { IfErr followed (λ error. leads_nowhere (error_kind error) ≡ false → result ≡ Err error) }
{
    match followed {
        Ok(kind) => Ok(Some(kind)),
        Err(error) => {
            if leads_nowhere(error.kind()) {
                Ok(None)
            } else {
                Err(error)
            }
        }
    }
}

// What a path leads to.
fn kind_at(rt: &impl rt::Files, path: &str) -> io::Result<FileType> {
    Ok(fs::metadata(rt, path)?.file_type())
}

// What a path leads to, if it leads anywhere.
fn followed(rt: &impl rt::Files, path: &str) -> io::Result<Option<FileType>> {
    found(kind_at(rt, path))
}

// Whether following a path led anywhere. Only for want of memory this is unknown.
fn leads_there(followed: io::Result<FileType>) -> Result<bool, AllocError>
    ensures there { is_err followed ≡ false → result ≡ Ok true }
    ensures nowhere { IfErr followed (λ error. is_for_memory (error_kind error) ≡ false → result ≡ Ok false) }
    ensures unknown { IfErr followed (λ error. is_for_memory (error_kind error) ≡ true → is_err result ≡ true) }
{
    match followed {
        Ok(_) => Ok(true),
        Err(error) if is_for_memory(error.kind()) => Err(AllocError),
        Err(_) => Ok(false),
    }
}

// The path that a path leads to: whole, and without a link in it.
fn canonical<R: rt::Files + AllocGlobal + Drop>(
    rt: &R,
    alloc: Global,
    path: &str,
) -> io::Result<String> {
    let found = fs::canonicalize(rt, path)?;
    Ok(String::from_str(alloc, found.as_str())?)
}

// The path that was found, if one was. Only for want of memory this is unknown.
fn path_found(found: io::Result<String>) -> Result<Option<String>, AllocError>
    ensures there { IfOk found (λ path. result ≡ Ok (Some path)) }
    ensures nowhere { IfErr found (λ error. is_for_memory (error_kind error) ≡ false → result ≡ Ok None) }
    ensures unknown { IfErr found (λ error. is_for_memory (error_kind error) ≡ true → is_err result ≡ true) }
{
    match found {
        Ok(path) => Ok(Some(path)),
        Err(error) if is_for_memory(error.kind()) => Err(AllocError),
        Err(_) => Ok(None),
    }
}

// A folder's name, followed by `/`.
fn folder_name(alloc: Global, name: &str) -> Result<String, AllocError>
    ensures { IfOk result (λ told. string_bytes told ≡ name.now ++ codes "/") }
{
    let mut told = String::from_str(alloc, name)?;
    told.push('/')?;
    Ok(told)
}

// The name of a member by what its path leads to: a file's own, a folder's followed by `/`, and `None` for anything else.
fn member_name(alloc: Global, name: &str, kind: Option<FileType>) -> io::Result<Option<String>>
    ensures file { IfSome kind (λ kind. IsFile kind → IfOk result (λ told. option_map string_bytes told ≡ Some name.now)) }
    ensures folder { IfSome kind (λ kind. IsDir kind → IfOk result (λ told. option_map string_bytes told ≡ Some (name.now ++ codes "/"))) }
    ensures neither { IfSome kind (λ kind. ¬ IsFile kind → ¬ IsDir kind → IfOk result (λ told. told ≡ None)) }
    ensures nowhere { IsNone kind → IfOk result (λ told. told ≡ None) }
{
    match kind {
        Some(kind) if kind.is_dir() => Ok(Some(folder_name(alloc, name)?)),
        Some(kind) if kind.is_file() => Ok(Some(String::from_str(alloc, name)?)),
        _ => Ok(None),
    }
}

// Appends a member to the names, if it is a file or a folder. A member that can't be read is an error.
fn take_member<R: rt::Files + Drop>(
    rt: &R,
    alloc: Global,
    entry: io::Result<fs::DirEntry<R, Global>>,
    names: &mut Vec<String>,
) -> io::Result<()>
    ensures { is_err entry ≡ true → is_err result ≡ true }
{
    let entry = entry?;
    let kind = followed(rt, entry.path().as_str())?;
    if let Some(name) = member_name(alloc, entry.file_name(), kind)? {
        names.push(name)?;
    }
    Ok(())
}

// The members of a folder, in the order of the system.
fn read_members<R: rt::Files + AllocGlobal + Clone + Drop>(
    rt: &R,
    alloc: Global,
    path: &str,
) -> io::Result<Vec<String>> {
    let mut names = Vec::new(alloc);
    for entry in fs::read_dir(rt, path)? {
        take_member(rt, alloc, entry, &mut names)?;
    }
    Ok(names)
}

impl<R: rt::Files + AllocGlobal + Clone + Drop> Folders for RuntimeFolders<R> {
    ghost told = { λ _. anything_in_order };

    // The members are sorted, whatever the order of the system is.
    fn members(&self, alloc: Global, path: &str) -> io::Result<Vec<String>> {
        let mut names = read_members(&self.rt, alloc, path)?;
        names.sort()?;
        Ok(names)
    }

    fn is_there(&self, path: &str) -> Result<bool, AllocError> {
        leads_there(kind_at(&self.rt, path))
    }

    fn whole_path(&self, alloc: Global, path: &str) -> Result<Option<String>, AllocError> {
        path_found(canonical(&self.rt, alloc, path))
    }
}
