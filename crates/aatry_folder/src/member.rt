//! The members of a folder: which are taken, and their names below the base.
ghost use Rattle.std.specs.Prelude.{◌≡◌, ◌++◌, ◌∷◌, [], IfOk, OnOk};
ghost use Rattle.aatry_folder.specs.Members.{is_folder, is_taken, names_in, texts_of, without_slash};

use crate::passed_over::{is_kept_aside, is_passed_over};
use aa_text_files::Files;
use std::alloc::{AllocError, Global};

// Whether a name is a folder's below the base, or that of the base itself, which is empty.
pub fn is_folder(name: &[u8]) -> bool
    ensures { result ≡ is_folder name.now }
{
    name.is_empty() || Files::is_folder(name)
}

// A name without the `/` at the end of a folder's name.
fn without_slash(name: &[u8]) -> &[u8]
    ensures { result.now ≡ without_slash name.now }
{
    if Files::is_folder(name) && !name.is_empty() {
        &name[..name.len() - 1]
    } else {
        name
    }
}

// Whether a member is taken: its name isn't passed over, and it is no folder that is kept aside.
#[tactic(auto, unfolding(crate::specs::Members::is_taken))]
fn is_taken(member: &[u8]) -> bool
    ensures { result ≡ is_taken member.now }
{
    !(is_passed_over(without_slash(member)) || is_kept_aside(member))
}

// Appends a member of a folder to the names, by its name below the base, if it is taken.
fn push_taken(
    names: &mut Vec<String>,
    alloc: Global,
    folder: &str,
    member: &str,
) -> Result<(), AllocError>
    ensures { OnOk result (texts_of names.new ≡ texts_of names.old ++ names_in folder.now (member.now ∷ [])) }
{
    if is_taken(member.as_bytes()) {
        let mut name = String::from_str(alloc, folder)?;
        name.push_str(member)?;
        names.push(name)?;
    }
    Ok(())
}

// The names below the base of those members of a folder that are taken.
pub fn names_in(
    alloc: Global,
    folder: &str,
    members: Vec<String>,
) -> Result<Vec<String>, AllocError>
    ensures { IfOk result (λ names. texts_of names ≡ names_in folder.now (texts_of members)) }
{
    let mut names = Vec::new(alloc);
    for member in members {
        push_taken(&mut names, alloc, folder, member.as_str())?;
    }
    Ok(names)
}
