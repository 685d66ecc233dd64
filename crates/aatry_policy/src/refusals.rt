//! Refusals as they are reported: by number and name, and in words with their place.

ghost use Rattle.std.specs.Prelude.{◌≡◌, ◌++◌, OnOk};
ghost use Rattle.aatry_policy.specs.LeftOut.{place_behind, place_in, refusal_text, with_worded_refusal, worded_refusal};
ghost use Rattle.aatry_report.specs.SeenRecord.{seen_record};

use aa_set_commands::Refusal;
use aa_text_files::{Files, Place};
use aatry_folder::PolicyFolder;
use aatry_refusal_words::refusal_words;
use aatry_report::{
    Record, line_place, path_below, push_named_refusal, push_number, push_shown, put_named_refusal,
};
use std::alloc::{AllocError, Global};

/// Appends the number and the name of a refusal to a text.
///
/// # Errors
///
/// Where memory runs out. A beginning may have been appended then.
pub fn push_refusal(out: &mut Vec<u8>, refusal: Refusal) -> Result<(), AllocError>
    ensures { OnOk result (out.new.items ≡ out.old.items ++ refusal_text refusal) }
{
    push_named_refusal(out, refusal.number(), refusal.name())
}

// Appends the place of a refusal in a file to a text, by the file's path and its bytes.
fn push_place_in(out: &mut Vec<u8>, path: &[u8], text: &[u8], at: usize) -> Result<(), AllocError>
    ensures { OnOk result (out.new.items ≡ out.old.items ++ place_in path.now text.now at) }
{
    let place = line_place(text, at);
    out.extend_from_slice(b" at ")?;
    push_shown(out, path)?;
    push_number(out, ":", place.line)?;
    push_number(out, ":", place.column)
}

// Appends the place of a refusal in one of the files below a folder to a text, if it has one.
fn push_place_behind(
    alloc: Global,
    base: &[u8],
    files: &Files,
    place: Option<Place>,
    out: &mut Vec<u8>,
) -> Result<(), AllocError>
    ensures { OnOk result (out.new.items ≡ out.old.items ++ place_behind base.now files.now place) }
{
    match place {
        None => Ok(()),
        Some(place) => {
            let path = path_below(alloc, base, files.name_at(place.file))?;
            push_place_in(out, &path, files.bytes_at(place.file), place.at)
        }
    }
}

/// Appends a refusal of a file of a folder to a text: its number, its name, what is wrong, in the words of a check of the file, and where that is,
/// if it has a place.
///
/// # Errors
///
/// Where memory runs out. A beginning may have been appended then.
pub fn push_worded(
    alloc: Global,
    folder: &PolicyFolder<'_>,
    refusal: Refusal,
    out: &mut Vec<u8>,
) -> Result<(), AllocError>
    ensures { OnOk result (out.new.items
        ≡ out.old.items ++ worded_refusal folder.now.language folder.now.base.now folder.now.files refusal) }
{
    let words = refusal_words(alloc, folder.language, &folder.files, refusal)?;
    push_refusal(out, refusal)?;
    out.extend_from_slice(b": ")?;
    out.extend_from_slice(words.as_bytes())?;
    push_place_behind(
        alloc,
        folder.base.as_bytes(),
        &folder.files,
        refusal.place,
        out,
    )
}

/// Puts a refusal of a file of a folder into a record, without the place: as `number`, `refusal` and `words`.
///
/// # Errors
///
/// Where memory runs out. A part may have been put then.
pub fn put_worded(
    alloc: Global,
    folder: &PolicyFolder<'_>,
    refusal: Refusal,
    into: &mut Record,
) -> Result<(), AllocError>
    ensures { OnOk result (seen_record into.new
        ≡ with_worded_refusal folder.now.language folder.now.files refusal (seen_record into.old)) }
{
    let words = refusal_words(alloc, folder.language, &folder.files, refusal)?;
    put_named_refusal(alloc, refusal.number(), refusal.name(), into)?;
    into.put_text(alloc, "words", words.as_bytes())
}
