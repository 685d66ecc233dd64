//! Whether two patterns overlap.

use aa_glob::{Pattern, PatternError, overlap};
use std::alloc::Global;

/// Whether some path matches both patterns.
pub fn share_a_path(alloc: Global, one: &[u8], other: &[u8]) -> Result<bool, PatternError> {
    let one = Pattern::read(alloc, one)?;
    let other = Pattern::read(alloc, other)?;
    Ok(overlap(alloc, &one, &other)?)
}
