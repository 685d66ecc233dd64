//! The report on the files that are left out of a policy set.

ghost use Rattle.std.specs.Prelude.{◌≡◌, ◌++◌, IfOk, OnOk, codes, map};
ghost use Rattle.aatry_folder.specs.Loadings.{file_names, seen_top};
ghost use Rattle.aatry_policy.specs.LeftOut.{file_line, file_record, file_text, is_listed, left_out_of, left_out_words, listed_lines};
ghost use Rattle.aatry_policy.specs.LeftOut.{reason_text, told_file, told_files, with_reason};
ghost use Rattle.aatry_policy.specs.SeenLeftOut.{all_left_out, seen_left_out, seen_words};
ghost use Rattle.aatry_report.specs.FilePlaces.{path_below};
ghost use Rattle.aatry_report.specs.Records.{with_text};
ghost use Rattle.aatry_report.specs.SeenRecord.{seen_record};
ghost use Rattle.aatry_report.specs.Shown.{shown};

use crate::left_out_files::{LeftOut, left_out_of};
use crate::refusals::{push_worded, put_worded};
use aa_set_commands::Refusal;
use aa_start::unread_in;
use aatry_folder::PolicyFolder;
use aatry_report::{Form, Record, Teller, path_below, push_shown};
use std::alloc::{AllocError, Global};

/// The words for a file that is left out.
#[derive(Clone, Copy)]
pub struct LeftOutWords<'a> {
    /// The kind of its record.
    pub kind: &'a str,
    /// The words before its path on its line.
    pub before: &'a str,
    /// The words between its path and why it is left out.
    pub behind: &'a str,
}

// Appends why a file wasn't read to a text, by its name in its folder.
fn push_unread(
    alloc: Global,
    base: &[u8],
    name: &[u8],
    words: &str,
    out: &mut Vec<u8>,
) -> Result<(), AllocError>
    ensures { OnOk result (out.new.items ≡ out.old.items ++ shown (path_below base.now name.now) ++ codes ": " ++ words.now) }
{
    let path = path_below(alloc, base, name)?;
    push_shown(out, &path)?;
    out.extend_from_slice(b": ")?;
    out.extend_from_slice(words.as_bytes())
}

// Puts why a file wasn't read into a record, by its name in its folder.
fn put_unread(
    alloc: Global,
    base: &[u8],
    name: &[u8],
    words: &str,
    into: &mut Record,
) -> Result<(), AllocError>
    ensures { OnOk result (seen_record into.new
        ≡ with_text (codes "words") words.now (with_text (codes "unread") (path_below base.now name.now) (seen_record into.old))) }
{
    let path = path_below(alloc, base, name)?;
    into.put_text(alloc, "unread", &path)?;
    into.put_text(alloc, "words", words.as_bytes())
}

/// Appends why a file of a folder is left out to a text: the number and the name of its refusal, what is wrong, in words, and where, if it has a
/// place; or, where the refusal is in a file that wasn't read, be it another one or itself, the path of that and why it wasn't.
///
/// # Errors
///
/// Where memory runs out. A beginning may have been appended then.
pub fn push_reason(
    alloc: Global,
    folder: &PolicyFolder<'_>,
    refusal: Refusal,
    out: &mut Vec<u8>,
) -> Result<(), AllocError>
    ensures { OnOk result (out.new.items
        ≡ out.old.items ++ reason_text folder.now.language folder.now.base.now folder.now.files folder.now.unread.items refusal) }
{
    match unread_in(&folder.unread, refusal.place) {
        None => push_worded(alloc, folder, refusal, out),
        Some((file, fault)) => push_unread(
            alloc,
            folder.base.as_bytes(),
            folder.files.name_at(file),
            fault.words(),
            out,
        ),
    }
}

/// Puts why a file of a folder is left out into a record, without the place: as `number`, `refusal` and `words`, or as `unread` and `words`.
///
/// # Errors
///
/// Where memory runs out. A part may have been put then.
pub fn put_reason(
    alloc: Global,
    folder: &PolicyFolder<'_>,
    refusal: Refusal,
    into: &mut Record,
) -> Result<(), AllocError>
    ensures { OnOk result (seen_record into.new
        ≡ with_reason folder.now.language folder.now.base.now folder.now.files folder.now.unread.items refusal (seen_record into.old)) }
{
    match unread_in(&folder.unread, refusal.place) {
        None => put_worded(alloc, folder, refusal, into),
        Some((file, fault)) => put_unread(
            alloc,
            folder.base.as_bytes(),
            folder.files.name_at(file),
            fault.words(),
            into,
        ),
    }
}

// Appends the line of a file that is left out to a text, by its path.
fn push_line(
    alloc: Global,
    words: LeftOutWords<'_>,
    folder: &PolicyFolder<'_>,
    path: &[u8],
    refusal: Refusal,
    out: &mut Vec<u8>,
) -> Result<(), AllocError>
    ensures { OnOk result (out.new.items
        ≡ out.old.items ++ file_line (seen_words words.entry) folder.now.language folder.now.base.now folder.now.files folder.now.unread.items path.now refusal) }
{
    out.extend_from_slice(words.before.as_bytes())?;
    push_shown(out, path)?;
    out.extend_from_slice(words.behind.as_bytes())?;
    push_reason(alloc, folder, refusal, out)?;
    out.push(b'\n')?;
    Ok(())
}

// The record of a file that is left out, by its path.
fn file_record(
    alloc: Global,
    words: LeftOutWords<'_>,
    folder: &PolicyFolder<'_>,
    path: &[u8],
    refusal: Refusal,
) -> Result<Record, AllocError>
    ensures { IfOk result (λ made. seen_record made
        ≡ file_record (seen_words words.entry) folder.now.language folder.now.base.now folder.now.files folder.now.unread.items path.now refusal) }
{
    let mut made = Record::new(alloc, words.kind)?;
    made.put_text(alloc, "file", path)?;
    put_reason(alloc, folder, refusal, &mut made)?;
    Ok(made)
}

// Appends the line or record of a file that is left out to a text, by its path.
fn push_text(
    teller: Teller,
    words: LeftOutWords<'_>,
    folder: &PolicyFolder<'_>,
    path: &[u8],
    refusal: Refusal,
    out: &mut Vec<u8>,
) -> Result<(), AllocError>
    ensures { OnOk result (out.new.items ≡ out.old.items
        ++ file_text teller.form (seen_words words.entry) folder.now.language folder.now.base.now folder.now.files folder.now.unread.items path.now refusal) }
{
    match teller.form {
        Form::Lines => push_line(teller.alloc, words, folder, path, refusal, out),
        Form::Records => {
            file_record(teller.alloc, words, folder, path, refusal)?.push(teller.alloc, out)
        }
    }
}

// Appends a file of a folder that is left out to a text.
fn push_file(
    teller: Teller,
    words: LeftOutWords<'_>,
    folder: &PolicyFolder<'_>,
    file: LeftOut<'_>,
    out: &mut Vec<u8>,
) -> Result<(), AllocError>
    ensures { OnOk result (out.new.items ≡ out.old.items
        ++ told_file teller.form (seen_words words.entry) folder.now.language folder.now.base.now folder.now.files folder.now.unread.items (seen_left_out file.entry)) }
{
    let path = path_below(teller.alloc, folder.base.as_bytes(), file.name.as_bytes())?;
    push_text(teller, words, folder, &path, file.refusal, out)
}

/// Appends files of a folder that are left out to a text: a line of each, with words before and after its path, and then why it is left out
/// (`push_reason`); or a record of the kind that the words name, with `file` and the same (`put_reason`).
///
/// # Errors
///
/// Where memory runs out. The report on some files may have been appended then.
pub fn push_files(
    teller: Teller,
    words: LeftOutWords<'_>,
    folder: &PolicyFolder<'_>,
    files: &[LeftOut<'_>],
    out: &mut Vec<u8>,
) -> Result<(), AllocError>
    ensures { OnOk result (out.new.items ≡ out.old.items
        ++ told_files teller.form (seen_words words.entry) folder.now.language folder.now.base.now folder.now.files folder.now.unread.items (all_left_out files.now)) }
{
    let mut rest = files;
    while let [file, behind @ ..] = rest {
        push_file(teller, words, folder, *file, out)?;
        rest = behind;
    }
    Ok(())
}

// Appends each file that is left out to a text, with its path and the reason.
fn push_each(
    teller: Teller,
    folder: &PolicyFolder<'_>,
    outcomes: &[Option<Refusal>],
    out: &mut Vec<u8>,
) -> Result<(), AllocError>
    ensures { OnOk result (out.new.items ≡ out.old.items
        ++ told_files teller.form left_out_words folder.now.language folder.now.base.now folder.now.files folder.now.unread.items
        (left_out_of (file_names (map seen_top folder.now.top.items)) outcomes.now)) }
{
    let files = left_out_of(teller.alloc, &folder.top, outcomes)?;
    let words = LeftOutWords {
        kind: "left_out",
        before: "",
        behind: ": left out: ",
    };
    push_files(teller, words, folder, &files, out)
}

// Whether each file that is left out is reported: always in records, and in verbose lines.
fn is_listed(teller: Teller) -> bool
    ensures { result ≡ is_listed teller.form teller.verbose }
{
    match teller.form {
        Form::Lines => teller.verbose,
        Form::Records => true,
    }
}

/// Appends each file of a folder that is left out to a text, with its path and the reason: why it is refused, or why another file that it includes,
/// or itself, wasn't read, with the path of that. Lines have none, unless they are verbose.
///
/// # Errors
///
/// Where memory runs out. A beginning may have been appended then.
pub fn push_left_out(
    teller: Teller,
    folder: &PolicyFolder<'_>,
    outcomes: &[Option<Refusal>],
    out: &mut Vec<u8>,
) -> Result<(), AllocError>
    ensures { OnOk result (out.new.items ≡ out.old.items ++ listed_lines teller.form teller.verbose folder.now.language folder.now.base.now folder.now.files
        folder.now.unread.items (file_names (map seen_top folder.now.top.items)) outcomes.now) }
{
    if is_listed(teller) {
        push_each(teller, folder, outcomes, out)
    } else {
        Ok(())
    }
}
