//! What stands below a line to point at a place in it.

use aatry_report::{line_at, push_caret_line};
use std::alloc::{AllocError, Global};

/// The line of a file that a place stands in, and below it a caret under the place.
pub fn marked(alloc: Global, text: &[u8], at: usize) -> Result<Vec<u8>, AllocError> {
    let mut lines = Vec::from_slice(alloc, line_at(text, at))?;
    lines.push(b'\n')?;
    push_caret_line(text, at, &mut lines)?;
    Ok(lines)
}
