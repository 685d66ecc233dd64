//! Folders of policy, read from a disk.

ghost use Rattle.std.specs.Prelude.{◌≡◌, ◌++◌, ◌∷◌, [], IfErr, IfOk, OnOk, map, string_bytes};
ghost use Rattle.std.specs.List.{All};
ghost use Rattle.aa_start.specs.Gathering.{IsTakable, names_of, texts_of};
ghost use Rattle.aa_start.specs.Readable.{AreTakenSo};
ghost use Rattle.aatry_folder.specs.Loadings.{AreTop, seen_top};
ghost use Rattle.aatry_folder.specs.PolicyFiles.{seen_files};
ghost use Rattle.aatry_folder.specs.PolicyFolders.{AreBelow, is_at_top, top_names, tried_names, unread_below, unread_if};
ghost use Rattle.aatry_folder.specs.Unread.{IsOfFolder};
ghost use Rattle.aatry_folder.specs.declared.fault.Fault.TheVariants.{NoMemory};

use crate::below::names_below;
use crate::fault::Fault;
use crate::folders::Folders;
use crate::loading::{TopFile, top_files};
use crate::policy_files::PolicyFiles;
use crate::whole::names_asked_whole;
use aa_bytes::{begins_with_byte, has_byte};
use aa_profile_parsing::Language;
use aa_start::{FileSystem, ReadableFiles, UnreadFault, gather_readable};
use aa_text_files::Files;
use std::alloc::{AllocError, Global};

/// A folder of policy that was read.
#[derive(Drop)]
pub struct PolicyFolder<'a> {
    /// The language by which its files are read.
    pub language: Language,
    /// Its path.
    pub base: &'a str,
    /// All files and folders below it, by their names in it, and those again by their whole paths that includes look up by these. A text that is
    /// refused is in place of each that wasn't read.
    pub files: Files,
    /// For each of them, in their order, why it wasn't read; `None` where it was.
    pub unread: Vec<Option<UnreadFault>>,
    /// The files that are tried: those at its top, whose profiles are loaded, in the order of their names, and all other files that weren't read, of
    /// which no profile is. The disabled ones come last.
    pub top: Vec<TopFile>,
}

impl<'a> PolicyFolder<'a> {
    /// What lies below it, borrowed. It takes no memory.
    pub fn lent(&self) -> PolicyFiles<'_>
        ensures { seen_files result ≡ record { files = self.now.files; base = self.now.base.now } }
    {
        PolicyFiles {
            files: &self.files,
            base: self.base.as_bytes(),
        }
    }
}

// Whether a file is at the top of the folder.
fn is_at_top(name: &str) -> bool
    ensures { result ≡ is_at_top name.now }
{
    !has_byte(b'/', name.as_bytes())
}

// Appends a name to `names`, if its file is at the top of the folder.
fn push_top(alloc: Global, names: &mut Vec<String>, name: &str) -> Result<(), AllocError>
    ensures { OnOk result (texts_of names.new ≡ texts_of names.old ++ top_names (name.now ∷ [])) }
{
    if is_at_top(name) {
        names.push(String::from_str(alloc, name)?)?;
    }
    Ok(())
}

// The names of the files at the top of the folder.
fn top_names(alloc: Global, names: &[String]) -> Result<Vec<String>, AllocError>
    ensures { IfOk result (λ top. texts_of top ≡ top_names (map string_bytes names.now)) }
{
    let mut top = Vec::new(alloc);
    for name in names {
        push_top(alloc, &mut top, name.as_str())?;
    }
    Ok(top)
}

// Appends the name of a file that wasn't read to `names`, if it isn't at the top of the folder and is no whole path, which is a further name.
fn push_unread(
    alloc: Global,
    names: &mut Vec<String>,
    name: &str,
    fault: Option<UnreadFault>,
) -> Result<(), AllocError>
    ensures { OnOk result (texts_of names.new ≡ texts_of names.old ++ unread_if name.now fault) }
{
    if fault.is_some() && !is_at_top(name) && !begins_with_byte(b'/', name.as_bytes()) {
        names.push(String::from_str(alloc, name)?)?;
    }
    Ok(())
}

// Appends the names of all files to `top` that weren't read, and aren't at the top of the folder.
fn push_each_unread(
    alloc: Global,
    top: &mut Vec<String>,
    names: &[String],
    unread: &[Option<UnreadFault>],
) -> Result<(), AllocError>
    ensures { OnOk result (texts_of top.new ≡ texts_of top.old ++ unread_below (map string_bytes names.now) unread.now) }
{
    let mut rest = names;
    let mut left = unread;
    while let [name, behind @ ..] = rest {
        let [fault, more @ ..] = left else {
            break;
        };
        push_unread(alloc, top, name.as_str(), *fault)?;
        rest = behind;
        left = more;
    }
    Ok(())
}

// The names of the files that are tried.
fn tried_names(
    alloc: Global,
    names: &[String],
    unread: &[Option<UnreadFault>],
) -> Result<Vec<String>, AllocError>
    ensures { IfOk result (λ tried. texts_of tried ≡ tried_names (map string_bytes names.now) unread.now) }
{
    let mut tried = top_names(alloc, names)?;
    push_each_unread(alloc, &mut tried, names, unread)?;
    Ok(tried)
}

// Reads the files of names that fit together, so that this fails only for want of memory.
fn read_again<D: FileSystem>(
    disk: &D,
    alloc: Global,
    base: &str,
    names: &[String],
) -> Result<ReadableFiles, Fault>
    ensures names { IfOk result (λ read. names_of read.files ≡ map string_bytes names.now) }
    ensures takable { IfOk result (λ read. All IsTakable read.files) }
    ensures read { IfOk result (λ read. AreTakenSo (D.known disk.now) base.now read.files read.unread.items) }
    ensures fault { IfErr result (λ told. told ≡ NoMemory) }
{
    match gather_readable(disk, alloc, base, names) {
        Ok(read) => Ok(read),
        Err(_) => Err(Fault::NoMemory),
    }
}

// All files of some names, followed by whole paths: those of the names, which were read already, where there are no whole paths.
fn with_whole<D: FileSystem>(
    disk: &D,
    alloc: Global,
    base: &str,
    names: Vec<String>,
    mut whole: Vec<String>,
    files: ReadableFiles,
) -> Result<(Vec<String>, ReadableFiles), Fault>
    requires named { names_of files.files ≡ texts_of names }
    requires takable { All IsTakable files.files }
    requires read { AreTakenSo (D.known disk.now) base.now files.files files.unread.items }
    ensures all { IfOk result (λ found. texts_of found.0 ≡ texts_of names ++ texts_of whole) }
    ensures named { IfOk result (λ found. names_of found.1.files ≡ texts_of found.0) }
    ensures takable { IfOk result (λ found. All IsTakable found.1.files) }
    ensures read { IfOk result (λ found. AreTakenSo (D.known disk.now) base.now found.1.files found.1.unread.items) }
    ensures fault { IfErr result (λ told. told ≡ NoMemory) }
{
    if whole.is_empty() {
        return Ok((names, files));
    }
    let mut all = names;
    all.append(&mut whole)?;
    let read = read_again(disk, alloc, base, &all)?;
    Ok((all, read))
}

// All files and folders below a folder of policy, followed by those whose whole paths are looked up, by their names and read.
fn files_below<F: Folders, D: FileSystem>(
    folders: &F,
    disk: &D,
    alloc: Global,
    base: &str,
) -> Result<(Vec<String>, ReadableFiles), Fault>
    ensures named { IfOk result (λ found. names_of found.1.files ≡ texts_of found.0) }
    ensures below { IfOk result (λ found. AreBelow (F.told folders.now) (D.known disk.now) base.now found.1.files found.1.unread.items) }
    ensures fault { IfErr result (IsOfFolder (F.told folders.now) base.now) }
{
    let names = names_below(folders, alloc, base)?;
    let files = gather_readable(disk, alloc, base, &names)?;
    let whole = names_asked_whole(folders, alloc, base, &names, &files.files)?;
    let found = with_whole(disk, alloc, base, names, whole, files)?;
    Ok(found)
}

/// Reads a folder of policy: its files and folders are found as by `names_below`, and their bytes read as by `aa_start::gather_readable`. So
/// nothing that an include looks up is missing where it exists in the folder and isn't passed over, and nothing is taken of a file that includes one
/// that can't be read. A file or folder that an include looks up by its whole path has this as a further name, after all others. Of each file that
/// is tried it is found how its profiles are loaded, as by `top_files`. The language is the one by which the files are to be read as policy.
///
/// # Errors
///
/// - `Unreadable` with the first folder that can't be read, or the first name that is none for a file, since it has a byte below the space.
/// - `TooMany` where there are more than 65,536 files and folders.
/// - `NoMemory` where memory ran out.
pub fn policy_below<'a, F: Folders, D: FileSystem>(
    alloc: Global,
    language: Language,
    folders: &F,
    disk: &D,
    base: &'a str,
) -> Result<PolicyFolder<'a>, Fault>
    ensures language { IfOk result (λ policy. policy.language ≡ language) }
    ensures base { IfOk result (λ policy. policy.base.now ≡ base.now) }
    ensures below { IfOk result (λ policy. AreBelow (F.told folders.now) (D.known disk.now) base.now policy.files policy.unread.items) }
    ensures top { IfOk result (λ policy.
        AreTop (F.told folders.now) base.now (tried_names (names_of policy.files) policy.unread.items) (map seen_top policy.top.items)) }
    ensures fault { IfErr result (IsOfFolder (F.told folders.now) base.now) }
{
    let (names, read) = files_below(folders, disk, alloc, base)?;
    let ReadableFiles { files, unread } = read;
    let top = top_files(folders, alloc, base, tried_names(alloc, &names, &unread)?)?;
    Ok(PolicyFolder {
        language,
        base,
        files,
        unread,
        top,
    })
}
