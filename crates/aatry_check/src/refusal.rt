//! The report on a file that is refused.

ghost use Rattle.std.specs.Prelude.{◌≡◌, ◌++◌, OnOk};
ghost use Rattle.aa_profile_parsing.specs.ProfileError.{number_of};
ghost use Rattle.aatry_check.specs.Checks.{earlier_lines, included_line, included_lines, refusal_lines};
ghost use Rattle.aatry_refusal_words.specs.Naming.{words_at};
ghost use Rattle.aatry_report.specs.declared.form.Form.TheVariants as form;

use crate::other::push_other;
use crate::records::refusal_record;
use aa_profile::{Language, ProfileError};
use aa_text_files::{Files, Place};
use aatry_refusal_words::words_of;
use aatry_report::{Form, Teller, path_below, push_placed_refusal, push_shown};
use std::alloc::{AllocError, Global};

/// Why a file is refused, and the earlier rule of a conflict.
#[derive(Clone, Copy)]
pub struct Refused {
    /// The language that it was read by.
    pub language: Language,
    /// The refusal.
    pub error: ProfileError,
    /// Where two rules conflict, the place of the earlier one.
    pub earlier: Option<Place>,
}

/// Appends which file includes the file of a fault to a text, where it isn't that file itself.
///
/// # Errors
///
/// Where memory runs out. A beginning may have been appended then.
pub fn push_included(
    alloc: Global,
    base: &[u8],
    name: &[u8],
    faulty: &[u8],
    out: &mut Vec<u8>,
) -> Result<(), AllocError>
    ensures { OnOk result (out.new.items ≡ out.old.items ++ included_line base.now name.now faulty.now) }
{
    if name == faulty {
        return Ok(());
    }
    let path = path_below(alloc, base, name)?;
    out.extend_from_slice(b"  included from ")?;
    push_shown(out, &path)?;
    out.push(b'\n')?;
    Ok(())
}

// Appends which file includes the file of a place to a text, if there is a place and it isn't that file itself.
fn push_included_at(
    alloc: Global,
    files: &Files,
    base: &[u8],
    name: &[u8],
    place: Option<Place>,
    out: &mut Vec<u8>,
) -> Result<(), AllocError>
    ensures { OnOk result (out.new.items ≡ out.old.items ++ included_lines files.now base.now name.now place) }
{
    match place {
        None => Ok(()),
        Some(place) => push_included(alloc, base, name, files.name_at(place.file), out),
    }
}

// Appends the report on the earlier rule to a text, if there is one.
fn push_earlier(
    alloc: Global,
    files: &Files,
    base: &[u8],
    earlier: Option<Place>,
    out: &mut Vec<u8>,
) -> Result<(), AllocError>
    ensures { OnOk result (out.new.items ≡ out.old.items ++ earlier_lines files.now base.now earlier) }
{
    match earlier {
        None => Ok(()),
        Some(place) => push_other(alloc, files, base, place, out),
    }
}

// Appends the lines on a file that is refused to a text, in these words.
fn push_lines(
    alloc: Global,
    files: &Files,
    base: &[u8],
    name: &[u8],
    words: &str,
    refused: Refused,
    out: &mut Vec<u8>,
) -> Result<(), AllocError>
    ensures { OnOk result (out.new.items ≡ out.old.items
        ++ refusal_lines form.Lines words.now files.now base.now name.now (number_of refused.error.refusal) refused.error.place refused.earlier) }
{
    let Refused { error, earlier, .. } = refused;
    let path = path_below(alloc, base, name)?;
    push_placed_refusal(
        alloc,
        files,
        base,
        &path,
        words,
        error.number(),
        error.place,
        out,
    )?;
    push_included_at(alloc, files, base, name, error.place, out)?;
    push_earlier(alloc, files, base, earlier, out)
}

// Appends the report on a file that is refused to a text, in these words.
fn push_in_words(
    teller: Teller,
    files: &Files,
    base: &[u8],
    name: &[u8],
    words: &str,
    refused: Refused,
    out: &mut Vec<u8>,
) -> Result<(), AllocError>
    ensures { OnOk result (out.new.items ≡ out.old.items
        ++ refusal_lines teller.form words.now files.now base.now name.now (number_of refused.error.refusal) refused.error.place refused.earlier) }
{
    match teller.form {
        Form::Lines => push_lines(teller.alloc, files, base, name, words, refused, out),
        Form::Records => refusal_record(teller.alloc, files, base, name, words, refused)?.push(
            teller.alloc,
            out,
        ),
    }
}

/// Appends the report on a file that is refused to a text.
///
/// # Errors
///
/// Where memory runs out. A beginning may have been appended then.
pub fn push_refusal(
    teller: Teller,
    files: &Files,
    base: &[u8],
    name: &[u8],
    refused: Refused,
    out: &mut Vec<u8>,
) -> Result<(), AllocError>
    ensures { OnOk result (out.new.items ≡ out.old.items
        ++ refusal_lines teller.form (words_at refused.language files.now refused.error.refusal refused.error.place) files.now base.now name.now
        (number_of refused.error.refusal) refused.error.place refused.earlier) }
{
    let words = words_of(teller.alloc, refused.language, files, refused.error)?;
    push_in_words(teller, files, base, name, words.as_str(), refused, out)
}
