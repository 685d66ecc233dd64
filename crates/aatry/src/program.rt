//! What the program does, from the words of its start to its exit status.

ghost use Rattle.std.specs.Prelude.{◌≡◌, ◌≤◌, ◌^◌, MatchResult, drop, map, string_bytes};
ghost use Rattle.aatry_arguments.specs.Forms.{asked_call};
ghost use Rattle.aatry_arguments.specs.Given.{meant_command, meant_path_comparison, meant_paths, meant_reach, meant_rules};
ghost use Rattle.aa_start.specs.Gathering.{texts_of};
ghost use Rattle.aatry.specs.Program.{IsCommandDone, IsDone, IsDoneBy, IsFaultShown, IsOutcomeShown, IsPathsDone, IsPathsOutcomeShown, IsSessionDone, IsShown, IsStarted, rules_how};
ghost use Rattle.aatry.specs.Program.{input_of, output_of, store_of};
ghost use Rattle.aatry_check_rules.specs.Below.{AreRulesChecked, IsEndOfRules};
ghost use Rattle.aatry_diff_paths.specs.Below.{ArePathsCompared, IsEndOfPathComparison};
ghost use Rattle.aatry_never_exec.specs.NeverExec.{IsClaimTold, IsEndOfClaim};
ghost use Rattle.aatry_reach.specs.Reach.{IsEndOfReach, IsReachTold};
ghost use Rattle.aatry.specs.Questions.{IsEndOf, IsToldBelow};
ghost use Rattle.aatry.specs.Status.{status_of};
ghost use Rattle.aatry_folder.specs.declared.fault.Fault.TheVariants.{BadArguments};

use crate::disk::Disk;
use crate::questions::{Inquiry, inquire, inquiry_fault};
use crate::reporting::{report, report_line};
use crate::status::{failure_status, paths_status};
use crate::streams::Streams;
use aa_profile_parsing::Language;
use aa_set_commands::{Sink, Source, write_all};
use aa_start::FileSystem;
use aatry_arguments::{
    AllPaths, ArgumentFault, Asking, Call, Command, PathComparison, Reach, RulesCheck, Session,
    call_of,
};
use aatry_check::check_folder;
use aatry_check_rules::{RulesHow, check_rules_folder};
use aatry_claims::PathsReport;
use aatry_diff::diff_folders;
use aatry_diff_paths::diff_paths_folders;
use aatry_folder::{Fault, Folders, Report};
use aatry_hints::hint;
use aatry_log::log_folder;
use aatry_never_exec::{claim_fault, claim_folder};
use aatry_reach::reach_folder;
use aatry_report::Teller;
use aatry_session_run::session_folder;
use aatry_test::{FileStore, test_folder};
use std::alloc::Global;

// Shows a text, and gives the exit status: the one that goes with the text, or that of the fault of standard output.
fn show<S, W: Sink, E: Sink>(
    alloc: Global,
    text: &[u8],
    fine: u8,
    streams: &mut Streams<S, W, E>,
) -> u8
    ensures { IsShown text.now fine (output_of (W.written streams.old.output) (W.written streams.new.output) (W.failed streams.new.output)) result }
{
    match write_all(&mut streams.output, text) {
        Ok(()) => fine,
        Err(_) => report(alloc, &mut streams.errors, &Fault::Write),
    }
}

// Writes what is noted beside what a command told. Where that can't be written, no more is lost than the notes.
fn note<E: Sink>(errors: &mut E, notes: &[u8]) {
    let _ = write_all(errors, notes);
}

// Shows what a command came to, or reports why it came to nothing. What is noted comes last, so that it stands at the end of all at a terminal.
fn show_outcome<S, W: Sink, E: Sink>(
    alloc: Global,
    outcome: Result<Report, Fault>,
    streams: &mut Streams<S, W, E>,
) -> u8
    ensures { IsOutcomeShown outcome (output_of (W.written streams.old.output) (W.written streams.new.output) (W.failed streams.new.output)) result }
{
    match outcome {
        Ok(found) => {
            let fine = failure_status(found.failed);
            let status = show(alloc, found.text.as_slice(), fine, streams);
            note(&mut streams.errors, found.notes.as_slice());
            status
        }
        Err(fault) => report(alloc, &mut streams.errors, &fault),
    }
}

// The exit status of a session, by how it ended. A fault is reported.
fn session_status<E: Sink>(alloc: Global, outcome: Result<(), Fault>, errors: &mut E) -> u8
    ensures { MatchResult outcome (λ _. result ≡ 0) (λ fault. result ≡ status_of fault) }
{
    match outcome {
        Ok(()) => 0,
        Err(fault) => report(alloc, errors, &fault),
    }
}

// Has the session that is asked for, and gives the exit status.
fn have_session<F: Folders, D: FileSystem, S: Source, W: Sink, E: Sink>(
    alloc: Global,
    language: Language,
    asked: Session,
    folders: &F,
    disk: &D,
    prompt: &[u8],
    streams: &mut Streams<S, W, E>,
) -> u8
    requires { S.reads streams.old.input ≤ 2 ^ 62 }
    ensures { IsSessionDone language (F.told folders.now) (D.known disk.now) (string_bytes asked.base) (input_of (S.left streams.old.input) prompt.now)
        (output_of (W.written streams.old.output) (W.written streams.new.output) (W.failed streams.new.output)) result }
{
    let outcome = session_folder(
        alloc,
        language,
        folders,
        disk,
        asked,
        prompt,
        &mut streams.input,
        &mut streams.output,
    );
    session_status(alloc, outcome, &mut streams.errors)
}

// Asks a folder a question, and shows what it comes to; where the words ask none, what is wrong with them is reported.
fn tell_question<F: Folders, D: FileSystem, S, W: Sink, E: Sink>(
    teller: Teller,
    inquiry: Inquiry,
    language: Language,
    asked: Asking,
    folders: &F,
    disk: &D,
    streams: &mut Streams<S, W, E>,
) -> u8
    ensures { IsCommandDone (IsToldBelow inquiry teller.form teller.verbose language (F.told folders.now) (D.known disk.now) (string_bytes asked.base) (texts_of asked.words))
        (IsEndOf inquiry (F.told folders.now) (string_bytes asked.base) (texts_of asked.words))
        (output_of (W.written streams.old.output) (W.written streams.new.output) (W.failed streams.new.output)) result }
{
    match inquiry_fault(teller.alloc, inquiry, &asked.words) {
        Ok(None) => {
            show_outcome(
                teller.alloc,
                inquire(teller, inquiry, language, folders, disk, asked),
                streams,
            )
        }
        Ok(Some(line)) => report_line(&mut streams.errors, &line, &Fault::BadQuestion),
        Err(_) => report(teller.alloc, &mut streams.errors, &Fault::NoMemory),
    }
}

// Shows what was found of all paths, or reports why nothing was, and gives the exit status.
fn show_found<S, W: Sink, E: Sink>(
    alloc: Global,
    outcome: Result<PathsReport, Fault>,
    streams: &mut Streams<S, W, E>,
) -> u8
    ensures { IsPathsOutcomeShown outcome (output_of (W.written streams.old.output) (W.written streams.new.output) (W.failed streams.new.output)) result }
{
    match outcome {
        Ok(
            PathsReport {
                report: found,
                undecided,
            },
        ) => {
            let fine = paths_status(found.failed, undecided);
            let status = show(alloc, found.text.as_slice(), fine, streams);
            note(&mut streams.errors, found.notes.as_slice());
            status
        }
        Err(fault) => report(alloc, &mut streams.errors, &fault),
    }
}

// Shows what a question about all paths came to, or reports why it came to nothing, and gives the exit status. Where its words ask nothing, a line tells why.
fn show_paths<S, W: Sink, E: Sink>(
    alloc: Global,
    line: &[u8],
    outcome: Result<PathsReport, Fault>,
    streams: &mut Streams<S, W, E>,
) -> u8
    ensures { IsPathsOutcomeShown outcome (output_of (W.written streams.old.output) (W.written streams.new.output) (W.failed streams.new.output)) result }
{
    match outcome {
        Err(Fault::BadQuestion) => report_line(&mut streams.errors, line, &Fault::BadQuestion),
        outcome => show_found(alloc, outcome, streams),
    }
}

// Asks a folder about all paths, and shows what it comes to; where the words ask nothing, what is wrong with them is reported.
fn tell_paths<F: Folders, D: FileSystem, S, W: Sink, E: Sink>(
    teller: Teller,
    language: Language,
    asked: AllPaths,
    folders: &F,
    disk: &D,
    streams: &mut Streams<S, W, E>,
) -> u8
    ensures { IsPathsDone (IsClaimTold teller.form teller.verbose language (F.told folders.now) (D.known disk.now) (meant_paths asked))
        (IsEndOfClaim language (F.told folders.now) (D.known disk.now) (meant_paths asked))
        (output_of (W.written streams.old.output) (W.written streams.new.output) (W.failed streams.new.output)) result }
{
    match claim_fault(teller.alloc, asked.always, &asked.asking.words) {
        Ok(line) => show_paths(
            teller.alloc,
            &line,
            claim_folder(teller, language, folders, disk, asked),
            streams,
        ),
        Err(_) => report(teller.alloc, &mut streams.errors, &Fault::NoMemory),
    }
}

// Compares two folders for all paths, and shows what it comes to.
fn compare_paths<F: Folders, D: FileSystem, S, W: Sink, E: Sink>(
    teller: Teller,
    language: Language,
    asked: PathComparison,
    folders: &F,
    disk: &D,
    streams: &mut Streams<S, W, E>,
) -> u8
    ensures { IsPathsDone (ArePathsCompared teller.form teller.verbose language (F.told folders.now) (D.known disk.now) (meant_path_comparison asked))
        (IsEndOfPathComparison (F.told folders.now) (meant_path_comparison asked))
        (output_of (W.written streams.old.output) (W.written streams.new.output) (W.failed streams.new.output)) result }
{
    let outcome = diff_paths_folders(teller, language, folders, disk, asked);
    show_found(teller.alloc, outcome, streams)
}

// Looks for rules that decide nothing, and shows what it comes to.
fn check_rules<F: Folders, D: FileSystem, S, W: Sink, E: Sink>(
    teller: Teller,
    language: Language,
    asked: RulesCheck,
    folders: &F,
    disk: &D,
    streams: &mut Streams<S, W, E>,
) -> u8
    ensures { IsPathsDone (AreRulesChecked teller.form teller.verbose language (F.told folders.now) (D.known disk.now) (meant_rules asked).check (rules_how (meant_rules asked)))
        (IsEndOfRules (F.told folders.now) (meant_rules asked).check)
        (output_of (W.written streams.old.output) (W.written streams.new.output) (W.failed streams.new.output)) result }
{
    let RulesCheck {
        check,
        included,
        limit,
    } = asked;
    let how = RulesHow { included, limit };
    let outcome = check_rules_folder(teller, language, folders, disk, check, how);
    show_found(teller.alloc, outcome, streams)
}

// Tells under which profiles programs may run that somebody starts, and shows what it comes to.
fn tell_reach<F: Folders, D: FileSystem, S, W: Sink, E: Sink>(
    teller: Teller,
    language: Language,
    asked: Reach,
    folders: &F,
    disk: &D,
    streams: &mut Streams<S, W, E>,
) -> u8
    ensures { IsPathsDone (IsReachTold teller.form teller.verbose language (F.told folders.now) (D.known disk.now) (meant_reach asked))
        (IsEndOfReach (F.told folders.now) (meant_reach asked))
        (output_of (W.written streams.old.output) (W.written streams.new.output) (W.failed streams.new.output)) result }
{
    let outcome = reach_folder(teller, language, folders, disk, asked);
    show_found(teller.alloc, outcome, streams)
}

// Does what a call asks for.
fn perform<F: Folders, D: FileSystem, T: FileStore, S: Source, W: Sink, E: Sink>(
    alloc: Global,
    call: Call,
    disk: &mut Disk<F, D, T>,
    prompt: &[u8],
    streams: &mut Streams<S, W, E>,
) -> u8
    requires { S.reads streams.old.input ≤ 2 ^ 62 }
    ensures { IsDoneBy call.language call.form call.verbose (F.told disk.old.folders) (D.known disk.old.files)
        (store_of (T.replaced disk.old.store) (T.replaced disk.new.store)) (input_of (S.left streams.old.input) prompt.now) (meant_command call.command)
        (output_of (W.written streams.old.output) (W.written streams.new.output) (W.failed streams.new.output)) result }
{
    let Call {
        language,
        form,
        verbose,
        command,
    } = call;
    let teller = Teller {
        alloc,
        form,
        verbose,
    };
    match command {
        Command::Check(asked) => {
            let outcome = check_folder(teller, language, &disk.folders, &disk.files, asked);
            show_outcome(alloc, outcome, streams)
        }
        Command::Test(asked) => {
            let outcome = test_folder(
                alloc,
                language,
                &disk.folders,
                &disk.files,
                &mut disk.store,
                asked,
            );
            show_outcome(alloc, outcome, streams)
        }
        Command::Who(asked) => tell_question(
            teller,
            Inquiry::Who,
            language,
            asked,
            &disk.folders,
            &disk.files,
            streams,
        ),
        Command::Why(asked) => tell_question(
            teller,
            Inquiry::Why,
            language,
            asked,
            &disk.folders,
            &disk.files,
            streams,
        ),
        Command::Paths(asked) => tell_paths(
            teller,
            language,
            asked,
            &disk.folders,
            &disk.files,
            streams,
        ),
        Command::Log(asked) => {
            let outcome = log_folder(
                teller,
                language,
                &disk.folders,
                &disk.files,
                asked,
                &mut streams.input,
            );
            show_outcome(alloc, outcome, streams)
        }
        Command::Diff(asked) => {
            let outcome = diff_folders(teller, language, &disk.folders, &disk.files, asked);
            show_outcome(alloc, outcome, streams)
        }
        Command::DiffAll(asked) => compare_paths(
            teller,
            language,
            asked,
            &disk.folders,
            &disk.files,
            streams,
        ),
        Command::CheckRules(asked) => check_rules(
            teller,
            language,
            asked,
            &disk.folders,
            &disk.files,
            streams,
        ),
        Command::Reach(asked) => tell_reach(
            teller,
            language,
            asked,
            &disk.folders,
            &disk.files,
            streams,
        ),
        Command::Session(asked) => have_session(
            alloc,
            language,
            asked,
            &disk.folders,
            &disk.files,
            prompt,
            streams,
        ),
    }
}

// The words behind the program's own name.
fn behind(words: &[String]) -> &[String]
    ensures { map string_bytes result.now ≡ drop 1 (map string_bytes words.now) }
{
    match words {
        [_, behind @ ..] => behind,
        [] => words,
    }
}

/// Reports on standard error that words ask for nothing, and gives the exit status, which is 2. The first word is the program's own name. Where the
/// others show what was meant, or what is missing, a line tells that; where they don't, or memory runs out, the fault alone is told.
pub fn report_words<E: Sink>(alloc: Global, words: &[String], errors: &mut E) -> u8
    ensures { result ≡ status_of BadArguments }
{
    match hint(alloc, behind(words)) {
        Ok(Some(line)) => report_line(errors, &line, &Fault::BadArguments),
        _ => report(alloc, errors, &Fault::BadArguments),
    }
}

// Shows what was asked for in the place of a command, or reports why there is none.
fn show_fault<S, W: Sink, E: Sink>(
    alloc: Global,
    words: &[String],
    fault: ArgumentFault,
    streams: &mut Streams<S, W, E>,
) -> u8
    ensures { IsFaultShown fault (output_of (W.written streams.old.output) (W.written streams.new.output) (W.failed streams.new.output)) result }
{
    match fault {
        ArgumentFault::Help(text) | ArgumentFault::Version(text) => {
            show(alloc, text.as_bytes(), 0, streams)
        }
        ArgumentFault::Bad => report_words(alloc, words, &mut streams.errors),
        ArgumentFault::Memory => report(alloc, &mut streams.errors, &Fault::NoMemory),
    }
}

// Does what words ask for, of which the first is the program's own name.
fn do_asked<F: Folders, D: FileSystem, T: FileStore, S: Source, W: Sink, E: Sink>(
    alloc: Global,
    words: &[String],
    disk: &mut Disk<F, D, T>,
    prompt: &[u8],
    streams: &mut Streams<S, W, E>,
) -> u8
    requires { S.reads streams.old.input ≤ 2 ^ 62 }
    ensures { IsDone (F.told disk.old.folders) (D.known disk.old.files) (store_of (T.replaced disk.old.store) (T.replaced disk.new.store))
        (input_of (S.left streams.old.input) prompt.now) (asked_call (drop 1 (map string_bytes words.now)))
        (output_of (W.written streams.old.output) (W.written streams.new.output) (W.failed streams.new.output)) result }
{
    match call_of(alloc, words) {
        Ok(call) => perform(alloc, call, disk, prompt, streams),
        Err(fault) => show_fault(alloc, words, fault, streams),
    }
}

/// Does what the words of the program's start ask for, and gives the exit status. The first word is the program's own name; where the words
/// can't be had, `words` is the fault to be reported. What is told stands on standard output; a fault is reported on standard error, on a line of
/// its own, and so is what a command notes beside what it tells, once that was written. A session takes its lines from standard input, and writes
/// `prompt` before it reads one; `log` reads it where it names no file. No file is replaced but transcripts, where a test is to accept what is told. The
/// status is 0 where each file that was checked was taken, each transcript that was tested passed or was accepted, a question has an answer,
/// somebody would be let through, what is claimed of all paths holds, nothing differs between two folders, logs were read, a session ended, or a text was
/// asked for and shown; 1 where one of these isn't so; 2 where the arguments or a question are no good, or a folder of policy or another file can't be read; and 3 where a stream or
/// memory failed, a transcript can't be replaced, or a claim about all paths isn't refuted, or nothing is known to differ of all paths, and nothing is known of
/// somebody.
pub fn start<F: Folders, D: FileSystem, T: FileStore, S: Source, W: Sink, E: Sink>(
    alloc: Global,
    words: Result<Vec<String>, Fault>,
    disk: &mut Disk<F, D, T>,
    prompt: &[u8],
    streams: &mut Streams<S, W, E>,
) -> u8
    requires { S.reads streams.old.input ≤ 2 ^ 62 }
    ensures { IsStarted (F.told disk.old.folders) (D.known disk.old.files) (store_of (T.replaced disk.old.store) (T.replaced disk.new.store))
        (input_of (S.left streams.old.input) prompt.now) words
        (output_of (W.written streams.old.output) (W.written streams.new.output) (W.failed streams.new.output)) result }
{
    match words {
        Ok(words) => do_asked(alloc, &words, disk, prompt, streams),
        Err(fault) => report(alloc, &mut streams.errors, &fault),
    }
}
