//! The test of transcripts over a folder of policy on disk.

ghost use Rattle.std.specs.Prelude.{◌≡◌, ◌++◌, ◌∷◌, ◌+◌, ◌-◌, ◌<◌, ◌≤◌, ◌^◌, [], IfErr, IfOk, OnErr, OnOk, map, string_bytes};
ghost use Rattle.aa_start.specs.Gathering.{texts_of};
ghost use Rattle.aatry_folder.specs.Reports.{seen_report};
ghost use Rattle.aatry_folder.specs.Unread.{IsOfFile, IsOfOneFile};
ghost use Rattle.aatry_test.specs.Below.{Came, IsFileTested, IsTestedAndReplaced, TestsEach, and_then, came_to_nothing};
ghost use Rattle.aatry_test.specs.Ends.{IsEndOfTest};
ghost use Rattle.aatry_test.specs.SeenOutcomes.{seen_outcome};
ghost use Rattle.aatry_test.specs.SeenTests.{seen_replacement, seen_tests};
ghost use Rattle.aatry_test.specs.Stores.{IsOfStore, Replaces, ReplacesUpTo};
ghost use Rattle.aatry_test.specs.Tests.{failed_of, replaced_of};

use crate::store::{FileStore, fault_of_store};
use crate::testing::{Outcome, Transcript, test};
use aa_set::Language;
use aa_start::FileSystem;
use aa_text_files::Files;
use aatry_arguments::Test;
use aatry_folder::{Fault, Folders, Report, file_at, policy_below};
use std::alloc::{AllocError, Global};

// A file that is to be replaced, and its new text.
#[derive(Drop)]
struct Replacement {
    path: String,
    text: Vec<u8>,
}

// The results of the tests so far, and whether the replies are to be accepted.
#[derive(Drop)]
struct Tests {
    accept: bool,
    text: Vec<u8>,
    failed: usize,
    replacements: Vec<Replacement>,
}

impl Tests {
    // No tests so far.
    fn new(alloc: Global, accept: bool) -> Tests
        ensures came { seen_tests result ≡ came_to_nothing }
        ensures accept { result.accept ≡ accept }
    {
        Tests {
            accept,
            text: Vec::new(alloc),
            failed: 0,
            replacements: Vec::new(alloc),
        }
    }

    // Counts the outcome of the transcript of a path.
    fn count(&mut self, path: String, outcome: Outcome) -> Result<(), AllocError>
        requires { self.old.failed < 2 ^ 64 - 1 }
        ensures failed { OnOk result (self.new.failed ≡ self.old.failed + failed_of (seen_outcome outcome)) }
        ensures replaced { OnOk result (map seen_replacement self.new.replacements.items
            ≡ map seen_replacement self.old.replacements.items ++ replaced_of (string_bytes path) (seen_outcome outcome)) }
        ensures text { OnOk result (self.new.text.items ≡ self.old.text.items) }
        ensures few { OnOk result (self.new.failed ≤ self.old.failed + 1) }
        ensures accept { OnOk result (self.new.accept ≡ self.old.accept) }
    {
        match outcome {
            Outcome::Passed => Ok(()),
            Outcome::Failed => {
                self.failed += 1;
                Ok(())
            }
            Outcome::Accepted(text) => {
                self.replacements.push(Replacement { path, text })?;
                Ok(())
            }
        }
    }
}

// Tests a transcript, and appends the report on it to those on the others.
fn test_at<D: FileSystem>(
    alloc: Global,
    language: Language,
    disk: &D,
    files: &Files,
    path: String,
    tests: &mut Tests,
) -> Result<(), Fault>
    requires { tests.old.failed < 2 ^ 64 - 1 }
    ensures told { OnOk result ((own : Came) × (seen_tests tests.new ≡ and_then (seen_tests tests.old) own)
        × IsFileTested language (D.known disk.now) files.now tests.old.accept (string_bytes path) own) }
    ensures few { OnOk result (tests.new.failed ≤ tests.old.failed + 1) }
    ensures accept { OnOk result (tests.new.accept ≡ tests.old.accept) }
    ensures fault { IfErr result (IsOfFile (D.known disk.now) (string_bytes path)) }
{
    let own = String::from_str(alloc, path.as_str())?;
    let file = file_at(alloc, disk, path)?;
    let transcript = Transcript {
        path: file.name_at(0),
        text: file.bytes_at(0),
    };
    let outcome = test(
        alloc,
        language,
        files,
        tests.accept,
        &transcript,
        &mut tests.text,
    )?;
    tests.count(own, outcome)?;
    Ok(())
}

// Tests transcripts.
fn test_each<D: FileSystem>(
    alloc: Global,
    language: Language,
    disk: &D,
    files: &Files,
    accept: bool,
    paths: Vec<String>,
) -> Result<Tests, Fault>
    ensures told { IfOk result (λ tests. TestsEach language (D.known disk.now) files.now accept (texts_of paths) (seen_tests tests)) }
    ensures fault { IfErr result (IsOfOneFile (D.known disk.now) (texts_of paths)) }
{
    let mut tests = Tests::new(alloc, accept);
    for path in paths {
        test_at(alloc, language, disk, files, path, &mut tests)?;
    }
    Ok(tests)
}

// Replaces a file.
fn replace_one<S: FileStore>(
    alloc: Global,
    store: &mut S,
    replacement: &Replacement,
) -> Result<(), Fault>
    ensures ok { OnOk result (Replaces (S.replaced store.old) (S.replaced store.new) (seen_replacement replacement.now ∷ [])) }
    ensures err { OnErr result (Replaces (S.replaced store.old) (S.replaced store.new) []) }
    ensures fault { IfErr result IsOfStore }
{
    match store.replace(
        alloc,
        replacement.path.as_str(),
        replacement.text.as_slice(),
    ) {
        Ok(()) => Ok(()),
        Err(error) => Err(fault_of_store(&error)),
    }
}

// Replaces files in their order, up to the first that can't be replaced.
fn replace_each<S: FileStore>(
    alloc: Global,
    store: &mut S,
    replacements: &[Replacement],
) -> Result<(), Fault>
    ensures ok { OnOk result (Replaces (S.replaced store.old) (S.replaced store.new) (map seen_replacement replacements.now)) }
    ensures err { OnErr result (ReplacesUpTo (S.replaced store.old) (S.replaced store.new) (map seen_replacement replacements.now)) }
    ensures fault { IfErr result IsOfStore }
{
    for replacement in replacements {
        replace_one(alloc, store, replacement)?;
    }
    Ok(())
}

// The report on tests, with how many transcripts failed.
fn report_of(alloc: Global, tests: Tests) -> Report
    ensures told { seen_report result ≡ record { text = (seen_tests tests).text; notes = []; failed = (seen_tests tests).failed } }
{
    let Tests { text, failed, .. } = tests;
    Report {
        text,
        notes: Vec::new(alloc),
        failed,
    }
}

/// Tests the transcripts that are asked for over a folder of policy: the folder is read as by `aatry_folder::policy_below`, and each transcript is
/// tested as by `aatry_test::test`, by a language. A transcript is read at its own path, which starts in the current folder where it doesn't begin
/// with `/`. Where the replies are to be accepted, each transcript that is accepted is then replaced in the store, in their order; an accepted one
/// doesn't count as failed. Without that nothing is replaced (`what_tests_replace`).
///
/// # Errors
///
/// - `Unreadable` with the first folder or file below the folder of policy that can't be read, or else the first transcript. Nothing was replaced
///   then.
/// - `TooMany` where there are more than 65,536 files and folders. Nothing was replaced then.
/// - `Write` where an accepted transcript can't be replaced. Those before it were, and no other.
/// - `NoMemory` where memory ran out. Nothing was replaced then, or those transcripts before the one that couldn't be for that.
pub fn test_folder<F: Folders, D: FileSystem, S: FileStore>(
    alloc: Global,
    language: Language,
    folders: &F,
    disk: &D,
    store: &mut S,
    asked: Test,
) -> Result<Report, Fault>
    ensures tested { IfOk result (λ report. IsTestedAndReplaced language (F.told folders.now) (D.known disk.now) (string_bytes asked.base) (texts_of asked.paths)
        asked.accept (S.replaced store.old) (S.replaced store.new) (seen_report report)) }
    ensures fault { IfErr result (IsEndOfTest language (F.told folders.now) (D.known disk.now) (string_bytes asked.base) (texts_of asked.paths)
        asked.accept (S.replaced store.old) (S.replaced store.new)) }
{
    let Test {
        base,
        paths,
        accept,
    } = asked;
    let policy = policy_below(alloc, language, folders, disk, base.as_str())?;
    let tests = test_each(alloc, language, disk, &policy.files, accept, paths)?;
    replace_each(alloc, store, &tests.replacements)?;
    Ok(report_of(alloc, tests))
}
