//! The heads of profiles in files that are left out of a policy set.

ghost use Rattle.std.specs.Prelude.{◌≡◌, ◌++◌, IfOk, OnOk, map, option_map};
ghost use Rattle.std.specs.List.{list_any};
ghost use Rattle.std.specs.Str.{bytes_eq};
ghost use Rattle.aatry_policy.specs.SeenLeftOut.{all_left_out as all_files, seen_left_out as seen_file};
ghost use Rattle.aatry_uncertain.specs.LeftOutHeads.{heads_in_bytes, heads_in_file, has_name, heads_in_files, heads_loaded, in_file};
ghost use Rattle.aatry_uncertain.specs.SeenHeads.{all_left_out, seen_heads};

use crate::heads::{Head, heads_of};
use aa_profile_data::cut_full_name;
use aa_text_files::Files;
use aatry_policy::{LeftOut, LoadedFolder, left_out_of};
use std::alloc::{AllocError, Global};

/// A profile's head in a file that is left out.
#[derive(Clone, Copy)]
pub struct LeftOutHead<'a> {
    /// The file, by its name in its folder.
    pub file: &'a str,
    /// The head.
    pub head: Head<'a>,
}

/// The heads of the files of a folder that are left out.
#[derive(Drop)]
pub struct LeftOutHeads<'a> {
    /// The path of the folder.
    pub base: &'a str,
    /// The heads, in the order of the files.
    pub heads: Vec<LeftOutHead<'a>>,
}

// Appends the heads of a file to `found`.
fn push_heads<'a>(
    file: &'a str,
    heads: &[Head<'a>],
    found: &mut Vec<LeftOutHead<'a>>,
) -> Result<(), AllocError>
    ensures { OnOk result (all_left_out found.new.items ≡ all_left_out found.old.items ++ map (in_file file.now) (seen_heads heads.now)) }
{
    let mut rest = heads;
    while let [head, behind @ ..] = rest {
        found.push(LeftOutHead { file, head: *head })?;
        rest = behind;
    }
    Ok(())
}

// Appends the heads of a file to `found`, by its bytes, if it has any.
fn push_of_bytes<'a>(
    alloc: Global,
    file: &'a str,
    bytes: Option<&'a [u8]>,
    found: &mut Vec<LeftOutHead<'a>>,
) -> Result<(), AllocError>
    ensures { OnOk result (all_left_out found.new.items
        ≡ all_left_out found.old.items ++ heads_in_bytes file.now (option_map (λ bytes. bytes.now) bytes.entry)) }
{
    match bytes {
        None => Ok(()),
        Some(bytes) => push_heads(file, &heads_of(alloc, bytes)?, found),
    }
}

// Appends the heads of a file that is left out to `found`.
fn push_of_file<'a>(
    alloc: Global,
    files: &'a Files,
    left_out: LeftOut<'a>,
    found: &mut Vec<LeftOutHead<'a>>,
) -> Result<(), AllocError>
    ensures { OnOk result (all_left_out found.new.items ≡ all_left_out found.old.items ++ heads_in_file files.now (seen_file left_out.entry)) }
{
    push_of_bytes(
        alloc,
        left_out.name,
        files.bytes(left_out.name.as_bytes()),
        found,
    )
}

// The heads of some files that are left out.
fn heads_in_files<'a>(
    alloc: Global,
    files: &'a Files,
    left_out: &[LeftOut<'a>],
) -> Result<Vec<LeftOutHead<'a>>, AllocError>
    ensures { IfOk result (λ heads. all_left_out heads.items ≡ heads_in_files files.now (all_files left_out.now)) }
{
    let mut found = Vec::new(alloc);
    let mut rest = left_out;
    while let [file, behind @ ..] = rest {
        push_of_file(alloc, files, *file, &mut found)?;
        rest = behind;
    }
    Ok(found)
}

impl<'a> LeftOutHeads<'a> {
    /// Whether one of the heads has the name of the profile in a full name. It takes no memory.
    pub fn has_name(&self, full: &[u8]) -> bool
        ensures { result ≡ has_name (all_left_out self.now.heads.items) full.now }
    {
        let (profile, _) = cut_full_name(full);
        is_among(&self.heads, profile)
    }
}

// Whether one of some heads has a name.
fn is_among(heads: &[LeftOutHead<'_>], name: &[u8]) -> bool
    ensures { result ≡ list_any (λ left_out. bytes_eq left_out.head.name name.now) (all_left_out heads.now) }
{
    let mut rest = heads;
    while let [head, behind @ ..] = rest {
        if head.head.name == name {
            return true;
        }
        rest = behind;
    }
    false
}

/// The heads of profiles in the files of a loaded folder that are left out, as far as they can be read (`heads_of`). A file that can't be read has
/// none. They borrow from the folder alone, so that what is loaded of it may change meanwhile.
///
/// # Errors
///
/// Where memory runs out.
pub fn heads_left_out<'a>(
    alloc: Global,
    loaded: &LoadedFolder<'a>,
) -> Result<LeftOutHeads<'a>, AllocError>
    ensures base { IfOk result (λ left_out. left_out.base.now ≡ loaded.now.folder.now.base.now) }
    ensures heads { IfOk result (λ left_out. all_left_out left_out.heads.items ≡ heads_loaded loaded.now) }
{
    let folder = loaded.folder;
    let left_out = left_out_of(alloc, &folder.top, &loaded.policy.outcomes)?;
    let heads = heads_in_files(alloc, &folder.files, &left_out)?;
    Ok(LeftOutHeads {
        base: folder.base,
        heads,
    })
}
