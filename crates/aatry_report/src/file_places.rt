//! Files of a folder of policy, and places in them.

ghost use Rattle.std.specs.Prelude.{◌≡◌, IfOk, OnOk};
ghost use Rattle.aatry_report.specs.FilePlaces.{path_below, with_line_place, without_slashes};
ghost use Rattle.aatry_report.specs.SeenRecord.{seen_record};

use crate::place::LinePlace;
use crate::record::Record;
use aa_bytes::begins_with_byte;
use std::alloc::{AllocError, Global};

// A path without the slashes at its end.
fn without_slashes(path: &[u8]) -> &[u8]
    ensures { result.now ≡ without_slashes path.now }
{
    let mut rest = path;
    while let Some((last, front)) = rest.split_last() {
        if *last != b'/' {
            return rest;
        }
        rest = front;
    }
    rest
}

/// The path of a file in reports: its name below the folder of policy, whose path is `base`, without doubled slashes in between. A name that is a
/// whole path, by which another file includes this one, is taken as it is.
///
/// # Errors
///
/// Where memory runs out.
pub fn path_below(alloc: Global, base: &[u8], name: &[u8]) -> Result<Vec<u8>, AllocError>
    ensures { IfOk result (λ path. path.items ≡ path_below base.now name.now) }
{
    if begins_with_byte(b'/', name) {
        return Vec::from_slice(alloc, name);
    }
    let mut path = Vec::from_slice(alloc, without_slashes(base))?;
    path.push(b'/')?;
    path.extend_from_slice(name)?;
    Ok(path)
}

/// Puts a place in a file into a record: `file`, its name in reports, and `line` and `column`.
///
/// # Errors
///
/// Where memory runs out. A part of the place may have been put then.
pub fn put_place(
    alloc: Global,
    path: &[u8],
    place: LinePlace,
    into: &mut Record,
) -> Result<(), AllocError>
    ensures { OnOk result (seen_record into.new ≡ with_line_place path.now place.line place.column (seen_record into.old)) }
{
    into.put_text(alloc, "file", path)?;
    into.put_number(alloc, "line", place.line)?;
    into.put_number(alloc, "column", place.column)
}
