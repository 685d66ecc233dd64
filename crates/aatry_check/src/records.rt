//! The records of files that are refused.

ghost use Rattle.std.specs.Prelude.{◌≡◌, Some, IfOk, OnOk};
ghost use Rattle.aa_profile_parsing.specs.ProfileError.{number_of};
ghost use Rattle.aa_text_files.specs.Files.{bytes_at, name_at};
ghost use Rattle.aatry_check.specs.Checks.{refusal_record, with_earlier, with_included, with_refusal};
ghost use Rattle.aatry_report.specs.Faults.{with_fault};
ghost use Rattle.aatry_report.specs.FilePlaces.{path_below};
ghost use Rattle.aatry_report.specs.SeenRecord.{seen_record};

use crate::other::put_other;
use crate::refusal::Refused;
use aa_profile::ProfileError;
use aa_text_files::{Files, Place};
use aatry_report::{Record, path_below, put_fault, put_fault_at};
use std::alloc::{AllocError, Global};

/// Puts which file includes the file of a fault into a record, where it isn't that file itself.
///
/// # Errors
///
/// Where memory runs out.
pub fn put_included(
    alloc: Global,
    base: &[u8],
    name: &[u8],
    faulty: &[u8],
    into: &mut Record,
) -> Result<(), AllocError>
    ensures { OnOk result (seen_record into.new ≡ with_included base.now name.now faulty.now (seen_record into.old)) }
{
    if name == faulty {
        return Ok(());
    }
    let path = path_below(alloc, base, name)?;
    into.put_text(alloc, "included_from", &path)
}

// Puts a fault at a place into a record, in these words.
fn put_placed(
    alloc: Global,
    files: &Files,
    base: &[u8],
    words: &str,
    number: u8,
    place: Place,
    into: &mut Record,
) -> Result<(), AllocError>
    ensures { OnOk result (seen_record into.new ≡ with_fault words.now (path_below base.now (name_at files.now place.file)) number (Some place.at)
        (bytes_at files.now place.file) (seen_record into.old)) }
{
    let path = path_below(alloc, base, files.name_at(place.file))?;
    put_fault_at(
        alloc,
        &path,
        words,
        number,
        files.bytes_at(place.file),
        place.at,
        into,
    )
}

// Puts what is wrong with a file that is refused into a record, in these words.
fn put_refusal(
    alloc: Global,
    files: &Files,
    base: &[u8],
    name: &[u8],
    words: &str,
    error: ProfileError,
    into: &mut Record,
) -> Result<(), AllocError>
    ensures { OnOk result (seen_record into.new
        ≡ with_refusal words.now files.now base.now name.now (number_of error.refusal) error.place (seen_record into.old)) }
{
    let number = error.number();
    match error.place {
        None => {
            let path = path_below(alloc, base, name)?;
            put_fault(alloc, &path, words, number, into)
        }
        Some(place) => {
            put_placed(alloc, files, base, words, number, place, into)?;
            put_included(alloc, base, name, files.name_at(place.file), into)
        }
    }
}

// Puts the earlier rule into a record, if there is one.
fn put_earlier(
    alloc: Global,
    files: &Files,
    base: &[u8],
    earlier: Option<Place>,
    into: &mut Record,
) -> Result<(), AllocError>
    ensures { OnOk result (seen_record into.new ≡ with_earlier files.now base.now earlier (seen_record into.old)) }
{
    match earlier {
        None => Ok(()),
        Some(place) => put_other(alloc, files, base, place, into),
    }
}

/// The record of a file that is refused, in these words.
///
/// # Errors
///
/// Where memory runs out.
pub fn refusal_record(
    alloc: Global,
    files: &Files,
    base: &[u8],
    name: &[u8],
    words: &str,
    refused: Refused,
) -> Result<Record, AllocError>
    ensures { IfOk result (λ made. seen_record made
        ≡ refusal_record words.now files.now base.now name.now (number_of refused.error.refusal) refused.error.place refused.earlier) }
{
    let Refused { error, earlier, .. } = refused;
    let mut made = Record::new(alloc, "refused")?;
    put_refusal(alloc, files, base, name, words, error, &mut made)?;
    put_earlier(alloc, files, base, earlier, &mut made)?;
    Ok(made)
}
