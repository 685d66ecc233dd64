//! The heading of the report on a line of a transcript.

ghost use Rattle.std.specs.Prelude.{◌≡◌, ◌++◌, OnOk};
ghost use Rattle.aatry_test.specs.Headings.{heading};

use aatry_report::{push_number, push_shown};
use std::alloc::AllocError;

/// Appends the heading of the report on a line of a transcript to a text: the path, the number of the line from 1, and the line itself.
///
/// # Errors
///
/// Where memory runs out. A beginning may have been appended then.
pub fn push_heading(
    out: &mut Vec<u8>,
    path: &[u8],
    number: usize,
    line: &[u8],
) -> Result<(), AllocError>
    ensures { OnOk result (out.new.items ≡ out.old.items ++ heading path.now number line.now) }
{
    push_shown(out, path)?;
    push_number(out, ":", number)?;
    out.extend_from_slice(b": ")?;
    push_shown(out, line)?;
    out.push(b'\n')?;
    Ok(())
}
