//! How the profiles of a file are loaded, as apparmor_parser asks the folders `disable/` and `force-complain/` of the base for it.

ghost use Rattle.std.specs.Prelude.{◌≡◌, ◌++◌, ◌∷◌, [], IfOk, OnOk, map, string_bytes};
ghost use Rattle.std.specs.List.{All};
ghost use Rattle.aa_start.specs.Gathering.{texts_of};
ghost use Rattle.aatry_folder.specs.Loadings.{AreTop, IsAsked, IsLoadedSo, disabled, in_force, in_loading_order, is_disabled, seen_top};
ghost use Rattle.aatry_folder.specs.NamesBelow.{path_of};
ghost use Rattle.aatry_folder.specs.declared.loading.Loading.{Loading};

use crate::below::path_of;
use crate::folders::Folders;
use std::alloc::{AllocError, Global};

/// How the profiles of a file are loaded.
#[derive(Clone, Copy)]
pub enum Loading {
    /// In the modes of their own flags.
    ByFlags,
    /// In complain mode, all of each, whatever their flags: something of the file's name exists in `force-complain/`, and nothing in `disable/`.
    ForceComplain,
    /// They are disabled: something of the file's name exists in `disable/`.
    Disable,
}

/// A file at the top of a folder of policy, whose profiles are loaded.
#[derive(Drop)]
pub struct TopFile {
    /// Its name.
    pub name: String,
    /// How its profiles are loaded.
    pub loading: Loading,
}

// Whether something of a file's name exists in a folder of the base, whose name has `/` at its end.
fn stands_in<F: Folders>(
    folders: &F,
    alloc: Global,
    base: &str,
    folder: &str,
    name: &str,
) -> Result<bool, AllocError>
    ensures { IfOk result (λ there. (F.told folders.now).IsThere (path_of base.now (folder.now ++ name.now)) there) }
{
    let mut member = String::from_str(alloc, folder)?;
    member.push_str(name)?;
    let path = path_of(alloc, base, member.as_str())?;
    folders.is_there(path.as_str())
}

// How the profiles of a file are loaded, by its name.
fn loading_of<F: Folders>(
    folders: &F,
    alloc: Global,
    base: &str,
    name: &str,
) -> Result<Loading, AllocError>
    ensures { IfOk result (λ loading. IsLoadedSo (F.told folders.now) base.now name.now loading) }
{
    if stands_in(folders, alloc, base, "disable/", name)? {
        return Ok(Loading::Disable);
    }
    if stands_in(folders, alloc, base, "force-complain/", name)? {
        return Ok(Loading::ForceComplain);
    }
    Ok(Loading::ByFlags)
}

// Appends a file to `top`, with how its profiles are loaded.
fn push_top<F: Folders>(
    folders: &F,
    alloc: Global,
    base: &str,
    name: String,
    top: &mut Vec<TopFile>,
) -> Result<(), AllocError>
    ensures { OnOk result ((loading : Loading) × IsLoadedSo (F.told folders.now) base.now (string_bytes name) loading
        × (map seen_top top.new.items ≡ map seen_top top.old.items ++ record { name = string_bytes name; loading = loading } ∷ [])) }
{
    let loading = loading_of(folders, alloc, base, name.as_str())?;
    top.push(TopFile { name, loading })?;
    Ok(())
}

// The files of some names, in their order, each with how its profiles are loaded.
fn asked<F: Folders>(
    folders: &F,
    alloc: Global,
    base: &str,
    names: Vec<String>,
) -> Result<Vec<TopFile>, AllocError>
    ensures named { IfOk result (λ top. map (λ file. file.name) (map seen_top top.items) ≡ texts_of names) }
    ensures each { IfOk result (λ top. All (IsAsked (F.told folders.now) base.now) (map seen_top top.items)) }
{
    let mut top = Vec::new(alloc);
    for name in names {
        push_top(folders, alloc, base, name, &mut top)?;
    }
    Ok(top)
}

// Whether the profiles of a file are disabled.
fn is_disabled(file: &TopFile) -> bool
    ensures { result ≡ is_disabled (seen_top file.now) }
{
    matches!(file.loading, Loading::Disable)
}

// Appends a file to those that are loaded first, or to those that are loaded last.
fn put_in_order(
    file: TopFile,
    first: &mut Vec<TopFile>,
    last: &mut Vec<TopFile>,
) -> Result<(), AllocError>
    ensures first { OnOk result (map seen_top first.new.items ≡ map seen_top first.old.items ++ in_force (seen_top file ∷ [])) }
    ensures last { OnOk result (map seen_top last.new.items ≡ map seen_top last.old.items ++ disabled (seen_top file ∷ [])) }
{
    if is_disabled(&file) {
        last.push(file)?;
    } else {
        first.push(file)?;
    }
    Ok(())
}

// Files in the order in which they are loaded.
fn in_loading_order(alloc: Global, files: Vec<TopFile>) -> Result<Vec<TopFile>, AllocError>
    ensures { IfOk result (λ top. map seen_top top.items ≡ in_loading_order (map seen_top files.items)) }
{
    let mut first = Vec::new(alloc);
    let mut last = Vec::new(alloc);
    for file in files {
        put_in_order(file, &mut first, &mut last)?;
    }
    first.append(&mut last)?;
    Ok(first)
}

/// The files of some names at the top of a folder of policy, each with how its profiles are loaded, in the order in which they are: the disabled
/// ones last, since apparmor_parser passes over these, so that a profile of the same name in another file is in force. For each file it is asked
/// whether something of its name exists in `disable/` and `force-complain/`; what lies in these folders is not read.
///
/// # Errors
///
/// Where memory runs out.
pub fn top_files<F: Folders>(
    folders: &F,
    alloc: Global,
    base: &str,
    names: Vec<String>,
) -> Result<Vec<TopFile>, AllocError>
    ensures { IfOk result (λ top. AreTop (F.told folders.now) base.now (texts_of names) (map seen_top top.items)) }
{
    let files = asked(folders, alloc, base, names)?;
    in_loading_order(alloc, files)
}
