//! Which of some patterns match a path.

use aa_glob::{Automaton, Pattern, PatternError, Steps};
use std::alloc::Global;

/// The places of the patterns that match the path. A `*` doesn't pass over a slash, `**` does.
pub fn matching_places(alloc: Global, path: &[u8]) -> Result<Vec<usize>, PatternError> {
    let mut patterns = Vec::new(alloc);
    patterns.push(Pattern::read(alloc, b"/srv/**")?)?;
    patterns.push(Pattern::read(alloc, b"/srv/*")?)?;
    patterns.push(Pattern::read(alloc, b"/srv/{www,ftp}/*.html")?)?;
    let automaton = Automaton::build(alloc, &patterns)?;
    Ok(automaton.matching(alloc, path, &mut Steps::new())?)
}
