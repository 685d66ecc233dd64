//! Which profiles a file has.

use aa_profile::{Language, ProfileError, read_file_in};
use aa_text::Files;
use std::alloc::Global;

/// The name of each profile of a file, and how many rules the profile has where includes and variables are put in.
pub fn rule_counts(
    alloc: Global,
    files: &Files,
    name: &[u8],
) -> Result<Vec<(Vec<u8>, usize)>, ProfileError> {
    let read = read_file_in(alloc, Language::Four, files, name)?;
    let mut counts = Vec::new(alloc);
    for profile in read.profiles.as_slice() {
        let name = Vec::from_slice(alloc, profile.name.as_slice())?;
        counts.push((name, profile.rules.as_slice().len()))?;
    }
    Ok(counts)
}
