//! Why a file is refused.

use aa_profile::{ProfileError, read_file};
use aa_text::Files;
use anyhow::Result;
use std::alloc::Global;

/// What is wrong with a file of this text, and where, if anything is.
pub fn refusal(alloc: Global, text: &[u8]) -> Result<Option<ProfileError>> {
    let mut files = Files::new(alloc);
    files.insert(
        Vec::from_slice(alloc, b"web")?,
        Vec::from_slice(alloc, text)?,
    )?;
    Ok(read_file(alloc, &files, b"web").err())
}
