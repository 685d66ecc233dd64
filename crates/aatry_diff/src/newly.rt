//! The files that are left out of a new folder of policy and not of the old one.

ghost use Rattle.std.specs.Prelude.{◌≡◌, ◌++◌, IfOk, OnOk};
ghost use Rattle.aa_bytes.specs.Texts.{is_empty};
ghost use Rattle.aatry_diff.specs.Folders.{newly_loaded};
ghost use Rattle.aatry_diff.specs.NewlyLeftOut.{has_name, newly, newly_if, newly_lines};
ghost use Rattle.aatry_policy.specs.Folders.{seen_folder};
ghost use Rattle.aatry_policy.specs.SeenLeftOut.{all_left_out, seen_left_out};

use aatry_folder::PolicyFolder;
use aatry_policy::{LeftOut, LeftOutWords, LoadedFolder, left_out_of, push_files};
use aatry_report::Teller;
use std::alloc::{AllocError, Global};

// Whether a file of this name is among some.
fn has_name(files: &[LeftOut<'_>], name: &str) -> bool
    ensures { result ≡ has_name (all_left_out files.now) name.now }
{
    let mut rest = files;
    while let [file, behind @ ..] = rest {
        if file.name == name {
            return true;
        }
        rest = behind;
    }
    false
}

// Appends a file to `files`, if none of its name is among the old ones.
fn push_if<'a>(
    old: &[LeftOut<'_>],
    file: LeftOut<'a>,
    files: &mut Vec<LeftOut<'a>>,
) -> Result<(), AllocError>
    ensures { OnOk result (all_left_out files.new.items
        ≡ all_left_out files.old.items ++ newly_if (all_left_out old.now) (seen_left_out file.entry)) }
{
    if has_name(old, file.name) {
        return Ok(());
    }
    files.push(file)?;
    Ok(())
}

// The newly left-out files.
fn newly<'a>(
    alloc: Global,
    old: &[LeftOut<'_>],
    new: &[LeftOut<'a>],
) -> Result<Vec<LeftOut<'a>>, AllocError>
    ensures { IfOk result (λ files. all_left_out files.items ≡ newly (all_left_out old.now) (all_left_out new.now)) }
{
    let mut files = Vec::new(alloc);
    let mut rest = new;
    while let [file, behind @ ..] = rest {
        push_if(old, *file, &mut files)?;
        rest = behind;
    }
    Ok(files)
}

// Appends the newly left-out files of a folder to a text.
fn push_told(
    teller: Teller,
    folder: &PolicyFolder<'_>,
    files: &[LeftOut<'_>],
    out: &mut Vec<u8>,
) -> Result<(), AllocError>
    ensures { OnOk result (out.new.items ≡ out.old.items ++ newly_lines teller.form (seen_folder folder.now) (all_left_out files.now)) }
{
    let words = LeftOutWords {
        kind: "newly_left_out",
        before: "newly left out: ",
        behind: ": ",
    };
    push_files(teller, words, folder, files, out)
}

// The newly left-out files of a loaded folder.
fn newly_of<'a>(
    alloc: Global,
    old: &LoadedFolder<'_>,
    new: &'a LoadedFolder<'_>,
) -> Result<Vec<LeftOut<'a>>, AllocError>
    ensures { IfOk result (λ files. all_left_out files.items ≡ newly_loaded old.now new.now) }
{
    let before = left_out_of(alloc, &old.folder.top, &old.policy.outcomes)?;
    let after = left_out_of(alloc, &new.folder.top, &new.policy.outcomes)?;
    newly(alloc, &before, &after)
}

/// Appends the files that are left out of a new folder and not of the old one to a text, by their names, and returns whether there are none: a line
/// of each with its path and the reason (`aatry_policy::push_reason`), or a record `newly_left_out` with `file` and what `aatry_policy::put_reason`
/// puts.
///
/// # Errors
///
/// Where memory runs out. A beginning may have been appended then.
pub fn push_newly(
    teller: Teller,
    old: &LoadedFolder<'_>,
    new: &LoadedFolder<'_>,
    out: &mut Vec<u8>,
) -> Result<bool, AllocError>
    ensures none { IfOk result (λ none. none ≡ is_empty (newly_loaded old.now new.now)) }
    ensures told { OnOk result (out.new.items
        ≡ out.old.items ++ newly_lines teller.form (seen_folder new.now.folder.now) (newly_loaded old.now new.now)) }
{
    let files = newly_of(teller.alloc, old, new)?;
    push_told(teller, new.folder, &files, out)?;
    Ok(files.is_empty())
}
