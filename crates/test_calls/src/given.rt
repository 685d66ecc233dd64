//! What tests hand in: files, their profiles, and managers of these.

ghost use Rattle.std.specs.Prelude.{◌≡◌, true, IfSome};
ghost use Rattle.std.specs.List.{list_all};
ghost use Rattle.aa_profile_data.specs.Conflicts.{profile_agrees};

use aa_profile::{Profile, read_file};
use aa_set::Manager;
use aa_text::Files;
use std::alloc::Global;

/// Files by these names and bytes, if there is memory for them.
pub fn files(alloc: Global, given: &[(&[u8], &[u8])]) -> Option<Files> {
    let mut files = Files::new(alloc);
    for (name, bytes) in given {
        let name = Vec::from_slice(alloc, name).ok()?;
        let bytes = Vec::from_slice(alloc, bytes).ok()?;
        files.insert(name, bytes).ok()?;
    }
    Some(files)
}

// The last of some profiles whose rules agree.
fn last_of(profiles: Vec<Profile>) -> Option<Profile>
    requires { list_all profile_agrees profiles.items ≡ true }
    ensures { IfSome result (λ profile. profile_agrees profile ≡ true) }
{
    let mut profiles = profiles;
    profiles.pop()
}

/// The last profile of a file, whose rules agree.
pub fn last_profile(alloc: Global, files: &Files, name: &[u8]) -> Option<Profile>
    ensures { IfSome result (λ profile. profile_agrees profile ≡ true) }
{
    let read = read_file(alloc, files, name).ok()?;
    last_of(read.profiles)
}

/// A manager with the profiles of a text.
pub fn managed(alloc: Global, text: &[u8]) -> Option<Manager> {
    let files = files(alloc, &[(b"all", text)])?;
    let mut manager = Manager::new(alloc, false);
    manager.add(&files, b"all").ok()?;
    Some(manager)
}

/// The name of the first row that isn't as it should be.
pub fn first_wrong(rows: &[(&'static str, bool)]) -> Option<&'static str> {
    for (name, is_right) in rows {
        if !*is_right {
            return Some(*name);
        }
    }
    None
}
