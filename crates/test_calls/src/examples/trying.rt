//! A change that is tried and taken back.

use aa_set::{Manager, Refusal};
use aa_text::Files;
use std::alloc::Global;

/// What is loaded while the profile `web` is in complain mode, and what once that is taken back.
pub fn lists(alloc: Global, files: &Files) -> Result<(Vec<u8>, Vec<u8>), Refusal> {
    let mut manager = Manager::new(alloc, false);
    manager.add(files, b"web")?;
    manager.mark(b"before")?;
    manager.complain(b"web")?;
    let tried = manager.list()?;
    manager.back(b"before")?;
    let taken_back = manager.list()?;
    Ok((tried, taken_back))
}
