//! A run of commands over files.

use aa_set::{FromRead, ToWrite, run};
use aa_text::Files;
use anyhow::Result;
use std::alloc::Global;

/// The replies to some lines, over one file named `web`.
pub fn replies(alloc: Global, web: &[u8], lines: &[u8]) -> Result<Vec<u8>> {
    let mut files = Files::new(alloc);
    files.insert(
        Vec::from_slice(alloc, b"web")?,
        Vec::from_slice(alloc, web)?,
    )?;
    let mut reader = FromRead::new(lines);
    let mut writer = ToWrite::new(Vec::new(alloc));
    run(alloc, &files, false, &mut reader, &mut writer)?;
    Ok(writer.into_inner())
}
