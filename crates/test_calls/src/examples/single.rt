//! What one pattern stands for.

use aa_glob::{Pattern, PatternError};
use std::alloc::Global;

/// Whether a pattern matches a path, and whether it is exact, so that it matches one path alone.
pub fn matches_alone(
    alloc: Global,
    pattern: &[u8],
    path: &[u8],
) -> Result<(bool, bool), PatternError> {
    let pattern = Pattern::read(alloc, pattern)?;
    Ok((pattern.matches(path), pattern.is_exact()))
}
