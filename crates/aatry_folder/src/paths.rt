//! The whole paths of those names in a folder that includes look up by them.

ghost use Rattle.std.specs.Prelude.{◌≡◌, ◌++◌, IfOk, OnOk, map, string_bytes};
ghost use Rattle.std.specs.Option.{option_map};
ghost use Rattle.aa_text_files.specs.Files.{has_control_byte};
ghost use Rattle.aatry_folder.specs.SeenPaths.{lent_paths};
ghost use Rattle.aatry_folder.specs.WholeNames.{asked_path, asked_paths, front_at, is_asked, is_asked_by, stands_below, whole_names, whole_names_behind};

use crate::asked::asked_in_files;
use aa_bytes::{begins_with, begins_with_byte, behind};
use aa_text_files::Files;
use std::alloc::{AllocError, Global};

/// The beginning of the path of each file below a folder, by the folder's path: followed by a slash, unless it ends in one.
///
/// # Errors
///
/// Where memory runs out.
pub fn front_at(alloc: Global, path: &str) -> Result<String, AllocError>
    ensures { IfOk result (λ front. string_bytes front ≡ front_at path.now) }
{
    let mut front = String::from_str(alloc, path)?;
    if !Files::is_folder(path.as_bytes()) {
        front.push('/')?;
    }
    Ok(front)
}

// Whether a path lies below a folder, or is that folder's with `/` at its end.
fn stands_below(folder: &[u8], path: &[u8]) -> bool
    ensures { result ≡ stands_below folder.now path.now }
{
    begins_with(folder, path) && begins_with_byte(b'/', behind(folder.len(), path))
}

// Whether a whole path is needed for what is looked up.
fn is_asked_by(path: &[u8], asked: &[u8]) -> bool
    ensures { result ≡ is_asked_by path.now asked.now }
{
    asked == path || stands_below(asked, path)
}

// Whether a whole path is needed for one of the names that are looked up.
fn is_asked(asked: &[&[u8]], path: &[u8]) -> bool
    ensures { result ≡ is_asked (lent_paths asked.now) path.now }
{
    let mut rest = asked;
    while let [one, behind @ ..] = rest {
        if is_asked_by(path, one) {
            return true;
        }
        rest = behind;
    }
    false
}

// The whole path of a name below a folder.
fn whole_path(alloc: Global, front: &str, name: &str) -> Result<String, AllocError>
    ensures { IfOk result (λ path. string_bytes path ≡ front.now ++ name.now) }
{
    let mut path = String::from_str(alloc, front)?;
    path.push_str(name)?;
    Ok(path)
}

// Appends the whole path of a name to `paths`, if it is needed.
fn push_asked(
    alloc: Global,
    asked: &[&[u8]],
    front: &str,
    name: &str,
    paths: &mut Vec<String>,
) -> Result<(), AllocError>
    ensures { OnOk result (map string_bytes paths.new.items ≡ map string_bytes paths.old.items ++ asked_path (lent_paths asked.now) (front.now ++ name.now)) }
{
    let path = whole_path(alloc, front, name)?;
    if is_asked(asked, path.as_bytes()) {
        paths.push(path)?;
    }
    Ok(())
}

// The whole paths of those names that are needed.
fn asked_paths(
    alloc: Global,
    asked: &[&[u8]],
    front: &str,
    names: &[String],
) -> Result<Vec<String>, AllocError>
    ensures { IfOk result (λ paths. map string_bytes paths.items ≡ asked_paths (lent_paths asked.now) front.now (map string_bytes names.now)) }
{
    let mut paths = Vec::new(alloc);
    let mut rest = names;
    while let [name, behind @ ..] = rest {
        push_asked(alloc, asked, front, name.as_str(), &mut paths)?;
        rest = behind;
    }
    Ok(paths)
}

// Whether a text holds a byte below the space.
fn has_control(text: &[u8]) -> bool
    ensures { result ≡ has_control_byte text.now }
{
    text.iter().any(|byte| *byte < b' ')
}

// The whole paths of those names that the includes of files need.
fn whole_names_behind(
    alloc: Global,
    front: &str,
    names: &[String],
    files: &Files,
) -> Result<Vec<String>, AllocError>
    ensures { IfOk result (λ paths. map string_bytes paths.items ≡ whole_names_behind front.now (map string_bytes names.now) files.now) }
{
    if has_control(front.as_bytes()) {
        return Ok(Vec::new(alloc));
    }
    let asked = asked_in_files(alloc, front.as_bytes(), files)?;
    asked_paths(alloc, &asked, front, names)
}

/// The whole paths of those names in a folder of policy that includes of its files look up by them: each is `front`, the beginning of the whole path
/// of each file of the folder (`front_at`), followed by the name, if `front` is known; else there are none. A folder's name ends in `/`, and what
/// lies below a folder that is looked up is included too. An include looks up what is written in it, without one `/` at its end, and exactly as it
/// is written: with `//` or `..` in it that is another path. A text that can't be cut into tokens looks up nothing. There are none where `front` has
/// a byte below the space, since no file has such a name.
///
/// # Errors
///
/// Where memory runs out.
pub fn whole_names(
    alloc: Global,
    front: &Option<String>,
    names: &[String],
    files: &Files,
) -> Result<Vec<String>, AllocError>
    ensures { IfOk result (λ paths.
        map string_bytes paths.items ≡ whole_names (option_map string_bytes front.now) (map string_bytes names.now) files.now) }
{
    match front {
        None => Ok(Vec::new(alloc)),
        Some(front) => whole_names_behind(alloc, front.as_str(), names, files),
    }
}
