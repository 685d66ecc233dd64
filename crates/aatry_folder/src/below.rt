//! The names of all files and folders below a folder of policy.
ghost use Rattle.std.specs.Prelude.{◌≡◌, ◌+◌, ◌<◌, ◌≤◌, [], List, ◌++◌, false, true, IfErr, IfOk, IfSome, IsTrue, OnErr, OnOk, string_bytes, vec_len};
ghost use Rattle.aatry_folder.specs.Links.{is_for_memory};
ghost use Rattle.aatry_folder.specs.Members.{is_folder, texts_of};
ghost use Rattle.aatry_folder.specs.NamesBelow.{Answer, AreFound, IsFault, IsWalk, most_names, path_of};
ghost use Rattle.aatry_folder.specs.declared.below.FolderFault.TheVariants as fault;
ghost use Rattle.aatry_folder.specs.code.Step.{ComeBehind, ComeOf, IsFaultAt, IsFaultBehind, IsFaultOfMore, IsFaultSince, name_at};

use crate::folders::Folders;
use crate::member::{is_folder, names_in};
use std::alloc::{AllocError, Global};
use std::io::ErrorKind;
use thiserror::Error;

/// Why the names below a folder of policy can't be listed.
#[derive(Debug, Drop, Error)]
pub enum FolderFault {
    /// The first folder that can't be read, by its name below the base, and the base by its path.
    #[error("cannot read the folder {0}")]
    Unreadable(String),
    /// There are more than 65,536 names.
    #[error("more than 65,536 files and folders")]
    TooMany,
    /// Memory ran out.
    #[error("memory ran out")]
    Memory,
}

impl From<AllocError> for FolderFault {
    ghost from_gives = { λ _ told. told ≡ fault.Memory };

    fn from(_error: AllocError) -> FolderFault {
        FolderFault::Memory
    }
}

/// How many files and folders are named at most.
pub const MOST_NAMES: usize = 65_536;

// The path of a file or folder by its name below the base; the base itself has no name.
pub fn path_of(alloc: Global, base: &str, name: &str) -> Result<String, AllocError>
    ensures { IfOk result (λ path. string_bytes path ≡ path_of base.now name.now) }
{
    let mut path = String::from_str(alloc, base)?;
    if !name.is_empty() {
        path.push_str("/")?;
        path.push_str(name)?;
    }
    Ok(path)
}

// Whether an error is for want of memory.
pub fn is_for_memory(kind: ErrorKind) -> bool
    ensures { result ≡ is_for_memory kind }
{
    matches!(kind, ErrorKind::OutOfMemory)
}

// The fault of a folder that can't be read, by the kind of error, and by the folder's path for the message, if there was memory for that.
fn fault_by(kind: ErrorKind, told: Result<String, AllocError>) -> FolderFault
    ensures memory { is_for_memory kind ≡ true → result ≡ FolderFault.Memory }
    ensures unreadable { is_for_memory kind ≡ false → IfOk told (λ told. result ≡ fault.Unreadable told) }
    ensures untold { OnErr told (result ≡ FolderFault.Memory) }
{
    if is_for_memory(kind) {
        return FolderFault::Memory;
    }
    match told {
        Ok(told) => FolderFault::Unreadable(told),
        Err(_) => FolderFault::Memory,
    }
}

// The fault of a folder that can't be read, by its name below the base.
fn fault_of(alloc: Global, base: &str, name: &str, kind: ErrorKind) -> FolderFault
    requires { IsTrue (is_folder name.now) }
    ensures told { IsFaultSince (is_for_memory kind ≡ false) base.now name.now result }
{
    let told = if name.is_empty() { base } else { name };
    fault_by(kind, String::from_str(alloc, told))
}

// The members of a folder by its name below the base.
fn members_of<F: Folders>(
    folders: &F,
    alloc: Global,
    base: &str,
    name: &str,
) -> Result<Vec<String>, FolderFault>
    requires { IsTrue (is_folder name.now) }
    ensures ok { IfOk result (λ members. (F.told folders.now).HasMembers (path_of base.now name.now) (texts_of members)) }
    ensures err { IfErr result (IsFaultAt (F.told folders.now) base.now name.now) }
{
    let path = path_of(alloc, base, name)?;
    match folders.members(alloc, path.as_str()) {
        Ok(members) => Ok(members),
        Err(error) => Err(fault_of(alloc, base, name, error.kind())),
    }
}

// The names that one name adds: of a folder those of its members that are taken, and of a file none.
fn names_of<F: Folders>(
    folders: &F,
    alloc: Global,
    base: &str,
    name: &str,
) -> Result<Vec<String>, FolderFault>
    ensures ok { IfOk result (λ names. ComeOf (F.told folders.now) base.now name.now (texts_of names)) }
    ensures err { IfErr result (IsFaultAt (F.told folders.now) base.now name.now) }
{
    if !is_folder(name.as_bytes()) {
        return Ok(Vec::new(alloc));
    }
    let members = members_of(folders, alloc, base, name)?;
    Ok(names_in(alloc, name, members)?)
}

// Appends `more` to the names, if they aren't too many together.
fn put_behind(names: &mut Vec<String>, mut more: Vec<String>) -> Result<(), FolderFault>
    requires { vec_len names.old ≤ most_names }
    ensures ok { OnOk result (texts_of names.new ≡ texts_of names.old ++ texts_of more) }
    ensures within { OnOk result (vec_len names.new ≤ most_names) }
    ensures err { IfErr result (IsFaultOfMore (vec_len names.old + vec_len more)) }
{
    if more.len() > MOST_NAMES - names.len() {
        return Err(FolderFault::TooMany);
    }
    names.append(&mut more)?;
    Ok(())
}

// Appends what the name at an index adds to the names.
fn put_names_of<F: Folders>(
    folders: &F,
    alloc: Global,
    base: &str,
    at: usize,
    names: &mut Vec<String>,
) -> Result<(), FolderFault>
    requires at { at < vec_len names.old }
    requires within { vec_len names.old ≤ most_names }
    ensures ok { OnOk result (ComeBehind (F.told folders.now) base.now (name_at (texts_of names.old) at)
        (texts_of names.old) (texts_of names.new)) }
    ensures within { OnOk result (vec_len names.new ≤ most_names) }
    ensures err { IfErr result (IsFaultBehind (F.told folders.now) base.now (texts_of names.old)
        (name_at (texts_of names.old) at)) }
{
    let more = names_of(folders, alloc, base, names[at].as_str())?;
    put_behind(names, more)
}

// The names of the members of the base that are taken.
fn base_names<F: Folders>(
    folders: &F,
    alloc: Global,
    base: &str,
) -> Result<Vec<String>, FolderFault>
    ensures ok { IfOk result (λ names. ComeOf (F.told folders.now) base.now [] (texts_of names)) }
    ensures within { IfOk result (λ names. vec_len names ≤ most_names) }
    ensures err { IfErr result (IsFaultBehind (F.told folders.now) base.now [] []) }
{
    let names = names_of(folders, alloc, base, "")?;
    if names.len() > MOST_NAMES {
        return Err(FolderFault::TooMany);
    }
    Ok(names)
}

/// The names of all files and folders below the folder `base`, relative to it and a folder's with `/` at its end: first those of the members of
/// `base`, followed by those of the members of each folder among the names, in order. What is passed over is left out, with all that lies below it
/// (`is_passed_over`, `is_kept_aside`). Links are followed: what a link leads to that goes back up is listed again below it, until the system
/// follows no further or there are too many names.
///
/// # Errors
///
/// - `Unreadable` with the first folder that can't be read, by its name below `base`, and `base` by its path.
/// - `TooMany` where there are more than 65,536 names.
/// - `Memory` where memory ran out.
pub fn names_below<F: Folders>(
    folders: &F,
    alloc: Global,
    base: &str,
) -> Result<Vec<String>, FolderFault>
    ensures walked { IfOk result (λ names. (answers : List Answer) × IsWalk (F.told folders.now) base.now answers (texts_of names)) }
    ensures found { IfOk result (λ names. AreFound (F.told folders.now) base.now [] (texts_of names)) }
    ensures within { IfOk result (λ names. vec_len names ≤ most_names) }
    ensures err { IfErr result (IsFault (F.told folders.now) base.now) }
{
    let mut names = base_names(folders, alloc, base)?;
    let mut next = 0;
    while next < names.len() {
        put_names_of(folders, alloc, base, next, &mut names)?;
        next += 1;
    }
    Ok(names)
}
