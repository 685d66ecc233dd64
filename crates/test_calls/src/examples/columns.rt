//! Where a file is refused, as people count.

use aa_profile::read_file;
use aa_text::Files;
use aatry_report::line_place;
use std::alloc::Global;

/// The file in which a file is refused, itself or one that it includes, and the line and the column there.
pub fn refused_at<'a>(
    alloc: Global,
    files: &'a Files,
    name: &[u8],
) -> Option<(&'a [u8], usize, usize)> {
    let place = read_file(alloc, files, name).err()?.place?;
    let found = line_place(files.bytes_at(place.file), place.at);
    Some((files.name_at(place.file), found.line, found.column))
}
