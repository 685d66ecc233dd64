//! The report on a file that is refused since it, or one that it includes, wasn't read.

ghost use Rattle.std.specs.Prelude.{◌≡◌, ◌++◌, IfOk, OnOk};
ghost use Rattle.aa_profile_parsing.specs.ProfileError.{number_of};
ghost use Rattle.aa_start.specs.Readable.{unread_in};
ghost use Rattle.aatry_check.specs.Checks.{told_refusal, unread_lines, unread_record, unread_text};
ghost use Rattle.aatry_refusal_words.specs.Naming.{words_at};
ghost use Rattle.aatry_report.specs.SeenRecord.{seen_record};

use crate::records::put_included;
use crate::refusal::{Refused, push_included, push_refusal};
use aa_start::{UnreadFault, unread_in};
use aa_text_files::Files;
use aatry_report::{Form, Record, Teller, path_below, push_fault, put_fault};
use std::alloc::{AllocError, Global};

// Appends the lines on a file that is refused since this one wasn't read to a text, in these words.
fn push_lines(
    alloc: Global,
    base: &[u8],
    name: &[u8],
    unread: &[u8],
    number: u8,
    words: &str,
    out: &mut Vec<u8>,
) -> Result<(), AllocError>
    ensures { OnOk result (out.new.items ≡ out.old.items ++ unread_text base.now name.now unread.now number words.now) }
{
    let path = path_below(alloc, base, unread)?;
    push_fault(out, &path, words, number)?;
    push_included(alloc, base, name, unread, out)
}

// The record of a file that is refused since this one wasn't read.
fn unread_record(
    alloc: Global,
    base: &[u8],
    name: &[u8],
    unread: &[u8],
    number: u8,
    words: &str,
) -> Result<Record, AllocError>
    ensures { IfOk result (λ made. seen_record made ≡ unread_record base.now name.now unread.now number words.now) }
{
    let path = path_below(alloc, base, unread)?;
    let mut made = Record::new(alloc, "refused")?;
    put_fault(alloc, &path, words, number, &mut made)?;
    put_included(alloc, base, name, unread, &mut made)?;
    Ok(made)
}

// Appends the report on a file that is refused since this one wasn't read to a text.
fn push_unread(
    teller: Teller,
    base: &[u8],
    name: &[u8],
    unread: &[u8],
    number: u8,
    words: &str,
    out: &mut Vec<u8>,
) -> Result<(), AllocError>
    ensures { OnOk result (out.new.items ≡ out.old.items ++ unread_lines teller.form base.now name.now unread.now number words.now) }
{
    match teller.form {
        Form::Lines => push_lines(teller.alloc, base, name, unread, number, words, out),
        Form::Records => unread_record(teller.alloc, base, name, unread, number, words)?.push(
            teller.alloc,
            out,
        ),
    }
}

/// Appends the report on a file that is refused to a text: where its fault is in a file that wasn't read, why that wasn't, without a place.
///
/// # Errors
///
/// Where memory runs out. A beginning may have been appended then.
pub fn push_told(
    teller: Teller,
    files: &Files,
    unread: &[Option<UnreadFault>],
    base: &[u8],
    name: &[u8],
    refused: Refused,
    out: &mut Vec<u8>,
) -> Result<(), AllocError>
    ensures { OnOk result (out.new.items ≡ out.old.items
        ++ told_refusal teller.form (words_at refused.language files.now refused.error.refusal refused.error.place) files.now base.now name.now
        (number_of refused.error.refusal) refused.error.place refused.earlier (unread_in unread.now refused.error.place)) }
{
    match unread_in(unread, refused.error.place) {
        None => push_refusal(teller, files, base, name, refused, out),
        Some((file, fault)) => push_unread(
            teller,
            base,
            name,
            files.name_at(file),
            refused.error.number(),
            fault.words(),
            out,
        ),
    }
}
