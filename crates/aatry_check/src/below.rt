//! The check of a folder of policy on disk.

ghost use Rattle.std.specs.Prelude.{◌≡◌, [], IfErr, IfOk, map, string_bytes};
ghost use Rattle.aa_start.specs.Gathering.{texts_of};
ghost use Rattle.aatry_check.specs.Below.{IsChecked, meant};
ghost use Rattle.aatry_check.specs.Checks.{TellsEach, refused_count};
ghost use Rattle.aatry_folder.specs.Loadings.{file_names, seen_top};
ghost use Rattle.aatry_folder.specs.Reports.{seen_report};
ghost use Rattle.aatry_check.specs.Ends.{IsEndOfCheck};

use crate::checked::check;
use aa_profile::Language;
use aa_start::{FileSystem, UnreadFault};
use aa_text_files::Files;
use aatry_arguments::Check;
use aatry_folder::{Fault, Folders, PolicyFolder, Report, TopFile, policy_below};
use aatry_report::Teller;
use std::alloc::{AllocError, Global};

// The names of files that are tried.
fn names_of(alloc: Global, top: &[TopFile]) -> Result<Vec<String>, AllocError>
    ensures { IfOk result (λ names. texts_of names ≡ file_names (map seen_top top.now)) }
{
    let mut names = Vec::with_capacity(alloc, top.len())?;
    for file in top {
        names.push(String::from_str(alloc, file.name.as_str())?)?;
    }
    Ok(names)
}

// The files that are meant: the given ones, or all that are tried where none is given.
fn meant(alloc: Global, top: &[TopFile], given: Vec<String>) -> Result<Vec<String>, AllocError>
    ensures { IfOk result (λ names. texts_of names ≡ meant (map seen_top top.now) (texts_of given)) }
{
    if given.is_empty() {
        names_of(alloc, top)
    } else {
        Ok(given)
    }
}

// Checks files, and keeps the report on them.
fn report_on(
    teller: Teller,
    language: Language,
    files: &Files,
    unread: &[Option<UnreadFault>],
    base: &str,
    top: &[TopFile],
    names: &[String],
) -> Result<Report, AllocError>
    ensures told { IfOk result (λ report. TellsEach teller.form language files.now unread.now base.now (map seen_top top.now) (map string_bytes names.now) report.text.items) }
    ensures noted { IfOk result (λ report. report.notes.items ≡ []) }
    ensures counted { IfOk result (λ report. report.failed ≡ refused_count language files.now (map string_bytes names.now)) }
{
    let mut text = Vec::new(teller.alloc);
    let checked = check(teller, language, files, unread, base, top, names, &mut text)?;
    Ok(Report {
        text,
        notes: Vec::new(teller.alloc),
        failed: checked.refused,
    })
}

/// Checks the given files of a folder of policy; or, where none is given, all at its top, followed by all other files that can't be read. The folder
/// is read as by `aatry_folder::policy_below`, and each file that is meant is reported as by `aatry_check::check`, by a language.
///
/// # Errors
///
/// - `Unreadable` with the first folder that can't be read, or the first name that is none for a file.
/// - `TooMany` where there are more than 65,536 files and folders.
/// - `NoMemory` where memory ran out.
pub fn check_folder<F: Folders, D: FileSystem>(
    teller: Teller,
    language: Language,
    folders: &F,
    disk: &D,
    asked: Check,
) -> Result<Report, Fault>
    ensures checked { IfOk result (λ report. IsChecked teller.form language (F.told folders.now) (D.known disk.now) (string_bytes asked.base) (texts_of asked.names)
        (seen_report report)) }
    ensures fault { IfErr result (IsEndOfCheck (F.told folders.now) (string_bytes asked.base)) }
{
    let Check { base, names: given } = asked;
    let PolicyFolder {
        base,
        files,
        unread,
        top,
        ..
    } = policy_below(teller.alloc, language, folders, disk, base.as_str())?;
    let meant = meant(teller.alloc, &top, given)?;
    Ok(report_on(teller, language, &files, &unread, base, &top, &meant)?)
}
