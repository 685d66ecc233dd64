//! Each abstraction of a folder, read as a profile reads it: by a probe, a file of its own that includes it.

ghost use Rattle.std.specs.Prelude.{◌≡◌, ◌++◌, ◌∷◌, [], true, IfOk, IfSome, Ok, OnOk, option_map};
ghost use Rattle.aatry_abstractions.specs.Probes.{abstraction, is_abstraction, is_addition, only_profile, preamble, probe, probe_name, probe_of, probe_text, probed, probes, with_file, with_files};
ghost use Rattle.aa_profile.specs.FileReading.{file_profiles_in};
ghost use Rattle.aa_profile_data.specs.Conflicts.{profile_agrees};
ghost use Rattle.aa_text_files.specs.Files.{bytes_at, name_at};

use aa_bytes::begins_with;
use aa_decide::Ready;
use aa_profile::{Profile, ProfileRefusal, read_file_in};
use aa_profile_parsing::Language;
use aa_text_files::{Files, FilesError};
use std::alloc::{AllocError, Global};

// The file with which stock policy's profiles begin.
const TUNABLES: &[u8] = b"tunables/global";

// Whether a name leads through a folder of additions, such as `base.d/` for `base`.
fn is_addition(name: &[u8]) -> bool
    ensures { result ≡ is_addition name.now }
{
    let mut rest = name;
    while let [_, behind @ ..] = rest {
        if begins_with(b".d/", rest) {
            return true;
        }
        rest = behind;
    }
    false
}

/// Whether a file is an abstraction, by its name: a file in a folder of additions, such as `abstractions/base.d/x`, is none. `O(n)` in the name's
/// length. It takes no memory.
pub fn is_abstraction(name: &[u8]) -> bool
    ensures { result ≡ is_abstraction name.now }
{
    begins_with(b"abstractions/", name) && !Files::is_folder(name) && !is_addition(name)
}

/// Appends the include of the variables, with which stock policy's profiles begin, to a text, where the folder has them.
///
/// # Errors
///
/// Where memory runs out. A beginning may have been appended then.
pub fn push_preamble(files: &Files, out: &mut Vec<u8>) -> Result<(), AllocError>
    ensures { OnOk result (out.new.items ≡ out.old.items ++ preamble files.now) }
{
    if files.has(TUNABLES) {
        return out.extend_from_slice(b"include <tunables/global>\n");
    }
    Ok(())
}

// The name of the probe of an abstraction.
fn probe_name(alloc: Global, name: &[u8]) -> Result<Vec<u8>, AllocError>
    ensures { IfOk result (λ made. made.items ≡ probe_name name.now) }
{
    let mut made = Vec::from_slice(alloc, name)?;
    made.extend_from_slice(b"//profile")?;
    Ok(made)
}

// The text of the probe of an abstraction.
fn probe_text(alloc: Global, files: &Files, name: &[u8]) -> Result<Vec<u8>, AllocError>
    ensures { IfOk result (λ text. text.items ≡ probe_text files.now name.now) }
{
    let mut text = Vec::new(alloc);
    push_preamble(files, &mut text)?;
    text.extend_from_slice(b"profile probe { include <")?;
    text.extend_from_slice(name)?;
    text.extend_from_slice(b"> }\n")?;
    Ok(text)
}

/// Inserts a file after the others, where it can be inserted (`Files::insert`).
///
/// # Errors
///
/// Where memory runs out. The files are as they were then.
pub fn put(files: &mut Files, name: Vec<u8>, bytes: Vec<u8>) -> Result<(), AllocError>
    ensures { OnOk result (files.new ≡ with_file files.old (name.items, bytes.items)) }
{
    match files.insert(name, bytes) {
        Ok(()) => Ok(()),
        Err(FilesError::BadFile) => Ok(()),
        Err(FilesError::Twice) => Ok(()),
        Err(FilesError::Memory) => Err(AllocError),
    }
}

// Inserts a copy of a file after the others, where it can be inserted.
fn put_copy(alloc: Global, name: &[u8], bytes: &[u8], into: &mut Files) -> Result<(), AllocError>
    ensures { OnOk result (into.new ≡ with_file into.old (name.now, bytes.now)) }
{
    let name = Vec::from_slice(alloc, name)?;
    let bytes = Vec::from_slice(alloc, bytes)?;
    put(into, name, bytes)
}

/// Copies of files.
///
/// # Errors
///
/// Where memory runs out.
pub fn copied(alloc: Global, files: &Files) -> Result<Files, AllocError>
    ensures { IfOk result (λ copies. copies ≡ with_files [] files.now) }
{
    let mut copies = Files::new(alloc);
    for place in 0..files.len() {
        put_copy(
            alloc,
            files.name_at(place),
            files.bytes_at(place),
            &mut copies,
        )?;
    }
    Ok(copies)
}

// Inserts the probe of a file after the others, if the file is an abstraction.
fn put_probe(alloc: Global, files: &Files, name: &[u8], into: &mut Files) -> Result<(), AllocError>
    ensures { OnOk result (into.new ≡ with_files into.old (probe_of files.now (name.now, []))) }
{
    if !is_abstraction(name) {
        return Ok(());
    }
    let text = probe_text(alloc, files, name)?;
    put(into, probe_name(alloc, name)?, text)
}

/// The files of a folder, followed by the probe of each abstraction.
///
/// # Errors
///
/// Where memory runs out.
pub fn probed(alloc: Global, files: &Files) -> Result<Files, AllocError>
    ensures { IfOk result (λ made. made ≡ probed files.now) }
{
    let mut made = copied(alloc, files)?;
    for place in 0..files.len() {
        put_probe(alloc, files, files.name_at(place), &mut made)?;
    }
    Ok(made)
}

/// The profile of a file that has only one. It takes no memory.
pub fn only_profile(profiles: Vec<Profile>) -> Option<Profile>
    ensures { result ≡ only_profile (Ok profiles.items) }
{
    let mut left = profiles;
    let last = left.pop();
    if left.is_empty() { last } else { None }
}

// A profile, made ready for requests.
fn ready(alloc: Global, profile: Option<Profile>) -> Result<Option<Ready>, AllocError>
    requires { IfSome profile (λ profile. profile_agrees profile ≡ true) }
    ensures { IfOk result (λ made. option_map (λ ready. ready) made ≡ profile) }
{
    match profile {
        Some(profile) => Ok(Some(Ready::build(alloc, profile)?)),
        None => Ok(None),
    }
}

/// An abstraction as a profile has it, ready for requests, if it can be read: from files with a probe for each abstraction (`probed`).
///
/// # Errors
///
/// Where memory runs out.
pub fn abstraction(
    alloc: Global,
    language: Language,
    files: &Files,
    name: &[u8],
) -> Result<Option<Ready>, AllocError>
    ensures { IfOk result (λ found. option_map (λ ready. ready) found ≡ abstraction language files.now name.now) }
{
    match read_file_in(alloc, language, files, &probe_name(alloc, name)?) {
        Ok(read) => ready(alloc, only_profile(read.profiles)),
        Err(error) => {
            if error.refusal == ProfileRefusal::Memory {
                return Err(AllocError);
            }
            Ok(None)
        }
    }
}
