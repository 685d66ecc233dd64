//! The report on how the files that a session read differ from those on disk now.

ghost use Rattle.std.specs.Prelude.{◌≡◌, ◌≤◌, ◌++◌, IfOk, OnOk, flat_map, option_map};
ghost use Rattle.aa_text_files.specs.Files.{name_at};
ghost use Rattle.aatry_session_told.specs.Differing.{at_place, count_line, counted, difference_if, difference_line, difference_of, differences};
ghost use Rattle.aatry_session_told.specs.Differing.{differing_lines, disk_differs, file_count, gone_or_newer, is_apart, read_differs, side_differs, words_of};
ghost use Rattle.aatry_session_told.specs.SeenDifferences.{seen_difference, seen_differences};

use aa_bytes::begins_with_byte;
use aa_text_files::Files;
use aatry_report::{path_below, push_number, push_shown};
use std::alloc::{AllocError, Global};

// How a file differs.
#[derive(Clone, Copy)]
enum Differs {
    // The disk has other bytes of its name now.
    Newer,
    // The disk has no file of its name any more.
    Gone,
    // No file of its name was read.
    New,
}

// Whose files are compared with those of the other side.
#[derive(Clone, Copy)]
enum Side {
    // Those that were read, with those of the disk.
    Read,
    // Those of the disk, with those that were read.
    Disk,
}

// A file that differs.
#[derive(Clone, Copy)]
struct Difference<'a> {
    // Its name.
    name: &'a [u8],
    // How it differs.
    how: Differs,
}

// How a file with these bytes differs from what the disk has of its name now, if it does.
fn gone_or_newer(bytes: &[u8], later: Option<&[u8]>) -> Option<Differs>
    ensures { result ≡ gone_or_newer bytes.now (option_map (λ bytes. bytes.now) later.entry) }
{
    match later {
        None => Some(Differs::Gone),
        Some(later) => {
            if later == bytes {
                None
            } else {
                Some(Differs::Newer)
            }
        }
    }
}

// Whether a name isn't compared.
fn is_apart(name: &[u8]) -> bool
    ensures { result ≡ is_apart name.now }
{
    Files::is_folder(name) || begins_with_byte(b'/', name)
}

// How a file that was read differs from those of the disk, if it does.
fn read_differs(disk: &Files, name: &[u8], bytes: &[u8]) -> Option<Differs>
    ensures { result ≡ read_differs disk.now (name.now, bytes.now) }
{
    if is_apart(name) {
        return None;
    }
    gone_or_newer(bytes, disk.bytes(name))
}

// How a file of the disk differs from those that were read, if it does.
fn disk_differs(read: &Files, name: &[u8]) -> Option<Differs>
    ensures { result ≡ disk_differs read.now name.now }
{
    if is_apart(name) || read.has(name) {
        None
    } else {
        Some(Differs::New)
    }
}

// How a file of one side differs from those of the other, if it does.
fn side_differs(side: Side, others: &Files, name: &[u8], bytes: &[u8]) -> Option<Differs>
    ensures { result ≡ side_differs side others.now (name.now, bytes.now) }
{
    match side {
        Side::Read => read_differs(others, name, bytes),
        Side::Disk => disk_differs(others, name),
    }
}

// Appends a file to `found`, if it differs.
fn push_if<'a>(
    name: &'a [u8],
    how: Option<Differs>,
    found: &mut Vec<Difference<'a>>,
) -> Result<(), AllocError>
    ensures { OnOk result (seen_differences found.new.items ≡ seen_differences found.old.items ++ difference_if name.now how) }
{
    match how {
        None => Ok(()),
        Some(how) => {
            found.push(Difference { name, how })?;
            Ok(())
        }
    }
}

// Appends the file at an index of one side to `found`, if it differs from those of the other.
fn push_at<'a>(
    side: Side,
    files: &'a Files,
    others: &Files,
    place: usize,
    found: &mut Vec<Difference<'a>>,
) -> Result<(), AllocError>
    ensures { OnOk result (seen_differences found.new.items
        ≡ seen_differences found.old.items ++ difference_of side others.now (at_place files.now place)) }
{
    let name = files.name_at(place);
    push_if(
        name,
        side_differs(side, others, name, files.bytes_at(place)),
        found,
    )
}

// Appends those files of one side to `found` that differ from those of the other.
fn push_each<'a>(
    side: Side,
    files: &'a Files,
    others: &Files,
    found: &mut Vec<Difference<'a>>,
) -> Result<(), AllocError>
    ensures { OnOk result (seen_differences found.new.items
        ≡ seen_differences found.old.items ++ flat_map (difference_of side others.now) files.now) }
{
    for place in 0..files.len() {
        push_at(side, files, others, place, found)?;
    }
    Ok(())
}

// All files that differ.
fn differences<'a>(
    alloc: Global,
    read: &'a Files,
    disk: &'a Files,
) -> Result<Vec<Difference<'a>>, AllocError>
    ensures { IfOk result (λ found. seen_differences found.items ≡ differences read.now disk.now) }
{
    let mut found = Vec::new(alloc);
    push_each(Side::Read, read, disk, &mut found)?;
    push_each(Side::Disk, disk, read, &mut found)?;
    Ok(found)
}

// How a file differs, in words.
fn words_of(how: Differs) -> &'static str
    ensures { result.now ≡ words_of how }
{
    match how {
        Differs::Newer => "newer on disk: ",
        Differs::Gone => "gone from disk: ",
        Differs::New => "new on disk: ",
    }
}

// Appends the line of a file that differs to a text.
fn push_line(
    alloc: Global,
    base: &[u8],
    difference: Difference<'_>,
    out: &mut Vec<u8>,
) -> Result<(), AllocError>
    ensures { OnOk result (out.new.items ≡ out.old.items ++ difference_line base.now (seen_difference difference.entry)) }
{
    let path = path_below(alloc, base, difference.name)?;
    out.extend_from_slice(words_of(difference.how).as_bytes())?;
    push_shown(out, &path)?;
    out.push(b'\n')?;
    Ok(())
}

// Appends a line for each file that differs to a text.
fn push_lines(
    alloc: Global,
    base: &[u8],
    found: &[Difference<'_>],
    out: &mut Vec<u8>,
) -> Result<(), AllocError>
    ensures { OnOk result (out.new.items ≡ out.old.items ++ flat_map (difference_line base.now) (seen_differences found.now)) }
{
    let mut rest = found;
    while let [difference, behind @ ..] = rest {
        push_line(alloc, base, *difference, out)?;
        rest = behind;
    }
    Ok(())
}

// Counts the file at an index as one, and what isn't compared as none.
fn counted_at(files: &Files, place: usize) -> usize
    ensures counted { result ≡ counted (name_at files.now place) }
    ensures few { result ≤ 1 }
{
    if is_apart(files.name_at(place)) { 0 } else { 1 }
}

// How many of these are files.
fn file_count(files: &Files) -> usize
    ensures { result ≡ file_count files.now }
{
    let mut count = 0;
    for place in 0..files.len() {
        count += counted_at(files, place);
    }
    count
}

// Appends the line on how many files were read, and how many differ, to a text.
fn push_count(out: &mut Vec<u8>, files: usize, differing: usize) -> Result<(), AllocError>
    ensures { OnOk result (out.new.items ≡ out.old.items ++ count_line files differing) }
{
    push_number(out, "files ", files)?;
    push_number(out, ", differing ", differing)?;
    out.push(b'\n')?;
    Ok(())
}

/// Appends how the files that were read from a folder, whose path is `base`, differ from those that are there now, `disk`, to a text: a line for
/// each that has other bytes now or is gone, in the order in which they were read; followed by one for each of whose name none was read; and how
/// many files were read, and how many lines these are. For a file that couldn't be read, then or now, the bytes in its place count
/// (`aa_start::gather_readable`). Folders aren't compared, nor whole paths, by which files have a further name.
///
/// # Errors
///
/// Where memory runs out. A beginning may have been appended then.
pub fn push_differing(
    alloc: Global,
    base: &[u8],
    read: &Files,
    disk: &Files,
    out: &mut Vec<u8>,
) -> Result<(), AllocError>
    ensures { OnOk result (out.new.items ≡ out.old.items ++ differing_lines base.now read.now disk.now) }
{
    let found = differences(alloc, read, disk)?;
    push_lines(alloc, base, &found, out)?;
    push_count(out, file_count(read), found.len())
}
