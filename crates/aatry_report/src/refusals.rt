//! Refusals, as they are reported.

ghost use Rattle.std.specs.Prelude.{◌≡◌, ◌++◌, [], OnOk, Some};
ghost use Rattle.aatry_report.specs.Refusals.{named_refusal, placed_refusal, with_named_refusal};
ghost use Rattle.aatry_report.specs.SeenRecord.{seen_record};

use crate::faults::{push_fault, push_fault_at};
use crate::file_places::path_below;
use crate::numbers::push_number;
use crate::record::Record;
use aa_text_files::{Files, Place};
use std::alloc::{AllocError, Global};

/// Appends the number and the name of a refusal to a text.
///
/// # Errors
///
/// Where memory runs out. A beginning may have been appended then.
pub fn push_named_refusal(out: &mut Vec<u8>, number: u8, name: &str) -> Result<(), AllocError>
    ensures { OnOk result (out.new.items ≡ out.old.items ++ named_refusal number name.now) }
{
    push_number(out, "", number as usize)?;
    out.push(b' ')?;
    out.extend_from_slice(name.as_bytes())?;
    Ok(())
}

/// Puts the number and the name of a refusal into a record, as `number` and `refusal`.
///
/// # Errors
///
/// Where memory runs out. The number may have been put then.
pub fn put_named_refusal(
    alloc: Global,
    number: u8,
    name: &str,
    into: &mut Record,
) -> Result<(), AllocError>
    ensures { OnOk result (seen_record into.new ≡ with_named_refusal number name.now (seen_record into.old)) }
{
    into.put_number(alloc, "number", number as usize)?;
    into.put_text(alloc, "refusal", name.as_bytes())
}

// Appends a refusal at a place to a text, in these words.
fn push_at(
    alloc: Global,
    files: &Files,
    base: &[u8],
    words: &str,
    number: u8,
    place: Place,
    out: &mut Vec<u8>,
) -> Result<(), AllocError>
    ensures { OnOk result (out.new.items ≡ out.old.items ++ placed_refusal words.now files.now base.now [] number (Some place)) }
{
    let path = path_below(alloc, base, files.name_at(place.file))?;
    push_fault_at(
        out,
        &path,
        words,
        number,
        files.bytes_at(place.file),
        place.at,
    )
}

/// Appends a refusal in words to a text: like `push_fault_at` where it has a place in one of the files that were taken from a folder, whose path is
/// `base`; and else like `push_fault`, by the name `told_by`.
///
/// # Errors
///
/// Where memory runs out. A beginning may have been appended then.
pub fn push_placed_refusal(
    alloc: Global,
    files: &Files,
    base: &[u8],
    told_by: &[u8],
    words: &str,
    number: u8,
    place: Option<Place>,
    out: &mut Vec<u8>,
) -> Result<(), AllocError>
    ensures { OnOk result (out.new.items ≡ out.old.items ++ placed_refusal words.now files.now base.now told_by.now number place) }
{
    match place {
        None => push_fault(out, told_by, words, number),
        Some(place) => push_at(alloc, files, base, words, number, place, out),
    }
}
