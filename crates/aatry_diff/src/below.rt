//! Two folders of policy on disk, compared.

ghost use Rattle.std.specs.Prelude.{◌≡◌, IfErr, IfOk, option_map, string_bytes};
ghost use Rattle.aatry_arguments.specs.Given.{meant_comparison, meant_source};
ghost use Rattle.aatry_diff.specs.Below.{IsComparedBelow, IsGathered, IsPlainAt, form_of, path_of};
ghost use Rattle.aatry_diff.specs.Ends.{IsEndOfDiff, IsOfPlain, IsOfSource};
ghost use Rattle.aatry_diff.specs.Sources.{seen_source};
ghost use Rattle.aatry_diff.specs.code.Requests.{gathered_of};
ghost use Rattle.aatry_folder.specs.Reports.{seen_report};

use crate::comparing::diff;
use aa_profile_parsing::Language;
use aa_start::FileSystem;
use aa_text_files::Files;
use aatry_arguments::{Comparison, RequestSource};
use aatry_folder::{Fault, Folders, Report, file_at, policy_below};
use aatry_logs::is_compressed;
use aatry_report::Teller;
use aatry_requests::Source;
use std::alloc::Global;

// The form of a source of requests.
fn form_of(source: &RequestSource) -> Source
    ensures { result ≡ form_of (meant_source source.now) }
{
    match source {
        RequestSource::Log(_) => Source::Log,
        RequestSource::Questions(_) => Source::Questions,
    }
}

// The path of a source of requests.
fn path_of(source: RequestSource) -> String
    ensures { string_bytes result ≡ path_of (meant_source source) }
{
    match source {
        RequestSource::Log(path) => path,
        RequestSource::Questions(path) => path,
    }
}

// The file of this path, unless gzip wrote it: its bytes are no lines then.
fn plain_at<D: FileSystem>(alloc: Global, disk: &D, path: String) -> Result<Files, Fault>
    ensures found { IfOk result (IsPlainAt (D.known disk.now) (string_bytes path)) }
    ensures fault { IfErr result (IsOfPlain (D.known disk.now) (string_bytes path)) }
{
    let file = file_at(alloc, disk, String::from_str(alloc, path.as_str())?)?;
    if is_compressed(file.bytes_at(0)) {
        return Err(Fault::Compressed(path));
    }
    Ok(file)
}

// The file at the path of a source of requests, with the form of the source; `None` where there is none.
fn requests_at<D: FileSystem>(
    alloc: Global,
    disk: &D,
    source: Option<RequestSource>,
) -> Result<Option<(Source, Files)>, Fault>
    ensures gathered { IfOk result (λ found. IsGathered (D.known disk.now) (option_map meant_source source) (gathered_of found)) }
    ensures fault { IfErr result (IsOfSource (D.known disk.now) (option_map meant_source source)) }
{
    match source {
        None => Ok(None),
        Some(source) => {
            let form = form_of(&source);
            let file = plain_at(alloc, disk, path_of(source))?;
            Ok(Some((form, file)))
        }
    }
}

// The form and the bytes of a source of requests, if there is one.
fn source_of(found: &Option<(Source, Files)>) -> Option<(Source, &[u8])>
    ensures { seen_source result ≡ gathered_of found.now }
{
    match found {
        None => None,
        Some((form, file)) => Some((*form, file.bytes_at(0))),
    }
}

/// Compares two folders of policy, both by one language, and by the requests of a log or the questions of a file too, where one is given. Each
/// folder is read as by `aatry_folder::policy_below`. The report has the files of either that are left out, where these are reported, with a note
/// on how many they are; the newly left-out ones; the profiles, children and hats that are gone, changed or new, with their differences
/// (`aatry_changes::push_changes`); the answers that differ, and a summary. One failed where something differs, a profile, child or hat, or an
/// answer; or where a file is newly left out.
///
/// # Errors
///
/// - `Unreadable` with the first folder or file below the old folder that can't be read, or else below the new one, or else the log or the file of
///   questions.
/// - `Compressed` with the path of the log or the file of questions, where gzip wrote it.
/// - `TooMany` where there are more than 65,536 files and folders below one of them.
/// - `NoMemory` where memory ran out.
pub fn diff_folders<F: Folders, D: FileSystem>(
    teller: Teller,
    language: Language,
    folders: &F,
    disk: &D,
    asked: Comparison,
) -> Result<Report, Fault>
    ensures told { IfOk result (λ report. IsComparedBelow teller.form teller.verbose language (F.told folders.now) (D.known disk.now) (meant_comparison asked)
        (seen_report report)) }
    ensures fault { IfErr result (IsEndOfDiff (F.told folders.now) (D.known disk.now) (meant_comparison asked)) }
{
    let Comparison {
        old,
        new,
        source,
        stat,
    } = asked;
    let before = policy_below(teller.alloc, language, folders, disk, old.as_str())?;
    let after = policy_below(teller.alloc, language, folders, disk, new.as_str())?;
    let found = requests_at(teller.alloc, disk, source)?;
    Ok(diff(teller, stat, &before, &after, source_of(&found))?)
}
